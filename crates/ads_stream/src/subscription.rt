//! What is known of one kind of resources on a stream.
ghost use Rattle.std.specs.Prelude.{◌≡◌, [], IfOk, OnOk, OnErr};
ghost use Rattle.std.specs.Option.{option_copied};
ghost use Rattle.ads_stream.specs.StreamSteps.{fresh, reopened, verdict_by, verdict_on, version_after, with_response, responded, differs, is_due, error_of, request_of, names_after_request, after_request};

use crate::verdict::Verdict;
use proto_discovery::Request;
use std::mem::replace;
use xc_base::{Kind, List, Memory, Node, Shared, Text};

/// The answer to a response that hasn't been sent.
#[derive(Drop)]
pub struct Answer {
    /// The text of the refusal, where the response is refused.
    pub error: Option<Text>,
}

/// What a stream knows of one kind of resources.
#[derive(Drop)]
pub struct Subscription {
    /// The version of the last accepted response, on whichever stream, or empty before any.
    pub version: Text,
    /// The nonce of the last response that was answered on this stream, or empty before any.
    pub nonce: Text,
    /// The names of the last request that was sent on this stream.
    pub asked: Option<Shared<List<Text>>>,
    /// What the last response is to be answered.
    pub answer: Option<Answer>,
}

/// The answer to a response.
fn answer_to(error: Option<&Text>) -> Result<Answer, Memory>
    ensures { IfOk result (λ answer. answer ≡ record { error = option_copied error.entry }) }
{
    match error {
        Some(text) => Ok(Answer {
            error: Some(text.clone()?),
        }),
        None => Ok(Answer { error: None }),
    }
}

/// What becomes of a response that is answered.
fn verdict_by(kind: Kind, error: Option<&Text>) -> Verdict
    ensures { result ≡ verdict_by kind (option_copied error.entry) }
{
    match error {
        Some(_) => Verdict::Nack(kind),
        None => Verdict::Ack(kind),
    }
}

impl Subscription {
    /// One for which nothing was asked and nothing came.
    pub(crate) fn new() -> Subscription
        ensures { result ≡ fresh }
    {
        Subscription {
            version: Text::new(),
            nonce: Text::new(),
            asked: None,
            answer: None,
        }
    }

    /// Forgets what was of the stream. The version stays.
    pub(crate) fn reopen(&mut self)
        ensures { self.new ≡ reopened self.old }
    {
        let version = replace(&mut self.version, Text::new());
        *self = Subscription {
            version,
            ..Subscription::new()
        };
    }

    /// The version of the last accepted response once this one is answered.
    fn version_after(&self, version: &Text, error: Option<&Text>) -> Result<Text, Memory>
        ensures { IfOk result (λ text. text ≡ version_after self.now.version version.now (option_copied error.entry)) }
    {
        match error {
            Some(_) => self.version.clone(),
            None => version.clone(),
        }
    }

    /// What is known once this response is answered.
    fn with_response(
        &self,
        version: &Text,
        nonce: &Text,
        error: Option<&Text>,
    ) -> Result<Subscription, Memory>
        ensures { IfOk result (λ s. s ≡ with_response self.now version.now nonce.now (option_copied error.entry)) }
    {
        Ok(Subscription {
            version: self.version_after(version, error)?,
            nonce: nonce.clone()?,
            asked: self.asked.clone()?,
            answer: Some(answer_to(error)?),
        })
    }

    /// Takes in a response. It is ignored exactly where nothing of the kind was asked on the stream, and refused
    /// exactly where an error is given.
    pub(crate) fn respond(
        &mut self,
        kind: Kind,
        version: &Text,
        nonce: &Text,
        error: Option<&Text>,
    ) -> Result<Verdict, Memory>
        ensures verdict { IfOk result (λ verdict. verdict ≡ verdict_on self.old kind (option_copied error.entry)) }
        ensures ok { OnOk result (self.new ≡ responded self.old version.now nonce.now (option_copied error.entry)) }
        ensures err { OnErr result (self.new ≡ self.old) }
    {
        if self.asked.is_none() {
            return Ok(Verdict::Ignored);
        }
        *self = self.with_response(version, nonce, error)?;
        Ok(verdict_by(kind, error))
    }

    /// Whether the names differ from those that were sent last. Before any request those are none.
    fn differs(&self, names: &Shared<List<Text>>) -> bool
        ensures { result ≡ differs self.now.asked names.now }
    {
        match &self.asked {
            Some(asked) => asked != names,
            None => !names.get().as_slice().is_empty(),
        }
    }

    /// Whether a request is due: a response is to be answered, or the names differ.
    pub(crate) fn is_due(&self, names: &Shared<List<Text>>) -> bool
        ensures { result ≡ is_due self.now names.now }
    {
        self.answer.is_some() || self.differs(names)
    }

    /// The text of the refusal that is to be sent, where there is one.
    fn error(&self) -> Result<Option<Text>, Memory>
        ensures { IfOk result (λ error. error ≡ error_of self.now) }
    {
        match &self.answer {
            Some(answer) => answer.error.clone(),
            None => Ok(None),
        }
    }

    /// The request for these names.
    pub(crate) fn request(
        &self,
        kind: Kind,
        names: &Shared<List<Text>>,
        node: Option<Node>,
    ) -> Result<Request, Memory>
        ensures { IfOk result (λ request. request ≡ request_of self.now kind names.now node) }
    {
        Ok(Request {
            kind,
            version: self.version.clone()?,
            nonce: self.nonce.clone()?,
            names: names.share()?,
            node,
            error: self.error()?,
        })
    }

    /// The names that were sent last, once these are sent where a request is due.
    fn names_after_request(
        &self,
        names: &Shared<List<Text>>,
    ) -> Result<Option<Shared<List<Text>>>, Memory>
        ensures { IfOk result (λ asked. asked ≡ names_after_request self.now names.now) }
    {
        if self.is_due(names) {
            Ok(Some(names.share()?))
        } else {
            self.asked.clone()
        }
    }

    /// What is known once the request that is due has been sent.
    pub(crate) fn after_request(&self, names: &Shared<List<Text>>) -> Result<Subscription, Memory>
        ensures { IfOk result (λ s. s ≡ after_request self.now names.now) }
    {
        Ok(Subscription {
            version: self.version.clone()?,
            nonce: self.nonce.clone()?,
            asked: self.names_after_request(names)?,
            answer: None,
        })
    }
}
