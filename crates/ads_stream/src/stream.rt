//! The stream of one authority.
ghost use Rattle.std.specs.Prelude.{◌≡◌, ◌==◌, ◌||◌, length, not, IfOk, OnOk, OnErr, is_some};
ghost use Rattle.std.specs.Option.{option_copied};
ghost use Rattle.ads_stream.specs.StreamSteps.{unopened, restarted, opened, lost, of_kind, with_kind, names_of, verdict_of, response_taken, greeting, with_request, state_after_requests, requests_due, names_told, IsSettledBut};

use crate::request_names::Names;
use crate::subscription::Subscription;
use crate::verdict::Verdict;
use proto_discovery::Request;
use std::alloc::Global;
use std::marker::Model;
use xc_base::{Kind, List, Memory, Node, Shared, Text};

/// Where a stream stands.
#[derive(Drop)]
pub struct StreamState {
    /// Who asks.
    pub node: Node,
    /// Whether the stream is open.
    pub is_up: bool,
    /// Whether a request was sent on it, the first of which tells the node.
    pub is_greeted: bool,
    /// What it knows of Listener resources.
    pub listener: Subscription,
    /// What it knows of Route resources.
    pub route: Subscription,
    /// What it knows of Cluster resources.
    pub cluster: Subscription,
    /// What it knows of Endpoint resources.
    pub endpoint: Subscription,
}

impl StreamState {
    /// What the stream knows of one kind.
    fn of(&self, kind: Kind) -> &Subscription
        ensures { result.now ≡ of_kind self.now kind }
    {
        match kind {
            Kind::Listener => &self.listener,
            Kind::Route => &self.route,
            Kind::Cluster => &self.cluster,
            Kind::Endpoint => &self.endpoint,
        }
    }

    /// Keeps what the stream knows of one kind from now on.
    fn keep(&mut self, kind: Kind, subscription: Subscription)
        ensures { self.new ≡ with_kind self.old kind subscription }
    {
        match kind {
            Kind::Listener => self.listener = subscription,
            Kind::Route => self.route = subscription,
            Kind::Cluster => self.cluster = subscription,
            Kind::Endpoint => self.endpoint = subscription,
        }
    }

    /// Where the stream stands once the requests for these names have been sent.
    fn state_after_requests(
        &self,
        now_watched: &Names,
        is_greeted: bool,
    ) -> Result<StreamState, Memory>
        ensures { IfOk result (λ state. state ≡ state_after_requests self.now now_watched.now is_greeted) }
    {
        Ok(StreamState {
            node: self.node.clone()?,
            is_up: self.is_up,
            is_greeted,
            listener: self.listener.after_request(&now_watched.listener)?,
            route: self.route.after_request(&now_watched.route)?,
            cluster: self.cluster.after_request(&now_watched.cluster)?,
            endpoint: self.endpoint.after_request(&now_watched.endpoint)?,
        })
    }
}

/// One authority's stream, which contracts see as where it stands. `names` or `answer` is called after each other call, and
/// gives the requests that are due by then.
#[derive(Drop)]
pub struct Stream {
    alloc: Global,
    state: StreamState,
}

impl Model for Stream {
    ghost use Rattle.ads_stream.specs.declared.stream.StreamState.{StreamState};

    ghost Value = { StreamState };

    ghost view = { λ s. s.state };
}

impl Stream {
    /// A stream that was never opened. It takes no memory.
    pub fn new(alloc: Global, node: Node) -> Stream
        ensures { result ≡ unopened node }
    {
        Stream {
            alloc,
            state: StreamState {
                node,
                is_up: false,
                is_greeted: false,
                listener: Subscription::new(),
                route: Subscription::new(),
                cluster: Subscription::new(),
                endpoint: Subscription::new(),
            },
        }
    }

    /// Whether it is open.
    pub fn is_up(&self) -> bool
        ensures { result ≡ self.now.is_up }
    {
        self.state.is_up
    }

    /// Whether resources of the kind were asked for on the open stream. A response of another kind is ignored.
    pub fn is_asked(&self, kind: Kind) -> bool
        ensures { result ≡ is_some (of_kind self.now kind).asked }
    {
        self.state.of(kind).asked.is_some()
    }

    /// Forgets the nonces and the names of the stream, and keeps the versions.
    fn restart(&mut self, is_up: bool)
        ensures { self.new ≡ restarted self.old is_up }
    {
        self.state.is_up = is_up;
        self.state.is_greeted = false;
        self.state.listener.reopen();
        self.state.route.reopen();
        self.state.cluster.reopen();
        self.state.endpoint.reopen();
    }

    /// The stream was opened, in place of the one that was open, if any. Versions stay; nonces and sent names are of
    /// the old stream. It takes no memory.
    pub fn opened(&mut self)
        ensures { self.new ≡ opened self.old }
    {
        self.restart(true);
    }

    /// The stream was lost. False exactly where it wasn't open. It takes no memory.
    pub fn lost(&mut self) -> bool
        ensures was_up { result ≡ self.old.is_up }
        ensures state { self.new ≡ lost self.old }
    {
        let was_up = self.state.is_up;
        self.restart(false);
        was_up
    }

    /// Takes in a response, with the text of the refusal where one of its resources is refused. It is closed exactly
    /// where the stream isn't open, else ignored exactly where nothing of the kind was asked for on it, and else
    /// refused exactly where an error is given. Without memory nothing changes.
    pub fn response(
        &mut self,
        kind: Kind,
        version: &Text,
        nonce: &Text,
        error: Option<&Text>,
    ) -> Result<Verdict, Memory>
        ensures verdict { IfOk result (λ verdict. verdict ≡ verdict_of self.old kind (option_copied error.entry)) }
        ensures ok { OnOk result (self.new ≡ response_taken self.old kind version.now nonce.now (option_copied error.entry)) }
        ensures err { OnErr result (self.new ≡ self.old) }
    {
        if !self.state.is_up {
            return Ok(Verdict::Closed);
        }
        match kind {
            Kind::Listener => self.state.listener.respond(kind, version, nonce, error),
            Kind::Route => self.state.route.respond(kind, version, nonce, error),
            Kind::Cluster => self.state.cluster.respond(kind, version, nonce, error),
            Kind::Endpoint => self.state.endpoint.respond(kind, version, nonce, error),
        }
    }

    /// The node where these requests are none and none was sent before, since the next one is the first on the stream.
    fn greeting(&self, before: &List<Request>) -> Result<Option<Node>, Memory>
        ensures { IfOk result (λ node. node ≡ greeting self.now before.now) }
    {
        if self.state.is_greeted || !before.as_slice().is_empty() {
            Ok(None)
        } else {
            Ok(Some(self.state.node.clone()?))
        }
    }

    /// Adds the request of this kind to those before it, where one is due.
    fn add_request(
        &self,
        kind: Kind,
        names: &Shared<List<Text>>,
        requests: &mut List<Request>,
    ) -> Result<(), Memory>
        ensures { OnOk result (requests.new ≡ with_request self.now kind names.now requests.old) }
    {
        let subscription = self.state.of(kind);
        if subscription.is_due(names) {
            let node = self.greeting(requests)?;
            requests.push(subscription.request(kind, names, node)?)?;
        }
        Ok(())
    }

    /// Whether a request was sent on the stream, once these have been.
    fn is_greeted_by(&self, requests: &List<Request>) -> bool
        ensures { result ≡ (self.now.is_greeted || not (length requests.now == 0)) }
    {
        self.state.is_greeted || !requests.as_slice().is_empty()
    }

    /// The requests that are due, by kind.
    fn requests(&self, now_watched: &Names) -> Result<List<Request>, Memory>
        ensures { IfOk result (λ requests. requests ≡ requests_due self.now now_watched.now) }
    {
        let mut requests = List::new(self.alloc);
        if self.state.is_up {
            self.add_request(Kind::Listener, &now_watched.listener, &mut requests)?;
            self.add_request(Kind::Route, &now_watched.route, &mut requests)?;
            self.add_request(Kind::Cluster, &now_watched.cluster, &mut requests)?;
            self.add_request(Kind::Endpoint, &now_watched.endpoint, &mut requests)?;
        }
        Ok(requests)
    }

    /// The requests that are due, by kind: where a response of the kind was answered since the last `names`, or where
    /// the names differ from those of the last request on this stream. Each has the version of the last accepted
    /// response, the nonce of the last answered one on this stream, the names, and the text of a refusal; the
    /// first on the stream has the node. There are none where the stream isn't open. Without memory nothing changes, and
    /// nothing counts as sent.
    pub fn names(&mut self, now_watched: &Names) -> Result<List<Request>, Memory>
        ensures due { IfOk result (λ requests. requests ≡ requests_due self.old now_watched.now) }
        ensures ok { OnOk result (self.new ≡ names_told self.old now_watched.now) }
        ensures err { OnErr result (self.new ≡ self.old) }
    {
        let requests = self.requests(now_watched)?;
        if !self.state.is_up {
            return Ok(requests);
        }
        let is_greeted = self.is_greeted_by(&requests);
        self.state = self.state.state_after_requests(now_watched, is_greeted)?;
        Ok(requests)
    }

    /// The requests that are due, where none but one of this kind can be: the names of all other kinds are as they were in
    /// the last requests, and no response of theirs is to be answered. It gives and leaves what `names` does, and looks at this kind
    /// alone. Where a response is to be answered no names are compared. Without memory nothing changes, and nothing counts
    /// as sent.
    pub fn answer(&mut self, kind: Kind, now_watched: &Names) -> Result<List<Request>, Memory>
        requires settled { IsSettledBut self.old now_watched.now kind }
        ensures due { IfOk result (λ requests. requests ≡ requests_due self.old now_watched.now) }
        ensures ok { OnOk result (self.new ≡ names_told self.old now_watched.now) }
        ensures err { OnErr result (self.new ≡ self.old) }
    {
        let mut requests = List::new(self.alloc);
        if !self.state.is_up {
            return Ok(requests);
        }
        let names = now_watched.of(kind);
        self.add_request(kind, names, &mut requests)?;
        let subscription = self.state.of(kind).after_request(names)?;
        self.state.is_greeted = self.is_greeted_by(&requests);
        self.state.keep(kind, subscription);
        Ok(requests)
    }
}
