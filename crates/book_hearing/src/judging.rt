//! Which response is answered, and the verdict on an event that brings none.
ghost use Rattle.std.specs.Prelude.{◌≡◌, ◌<◌, length, [], List, Bool, true, false, IfOk, IfErr, IfSome, Some, None};
ghost use Rattle.xc_base.specs.declared.names.Kind.{Kind as KindValue};
ghost use Rattle.call_journal.specs.declared.entry.Entry.{Entry as EntryValue};
ghost use Rattle.call_journal.specs.declared.event.DriverEvent.{DriverEvent as EventValue};
ghost use Rattle.xds_bootstrap.specs.declared.bootstrap.Bootstrap.{Bootstrap as BootstrapValue};
ghost use Rattle.xds_name.specs.declared.target.Target.{Target as TargetValue};
ghost use Rattle.book_fates.specs.resource_check.Deliveries.{IsPrepared};
ghost use Rattle.book_fates.specs.xds_history.Setting.{Setting, setting_of};
ghost use Rattle.book_fates.specs.xds_history.Responses as history;
ghost use Rattle.book_streams.specs.StreamsKept.{states_of};
ghost use Rattle.book_streams.specs.StreamsLaws.{authority_in};
ghost use Rattle.book_hearing.specs.HeardEvents.{AreDeliverable, IsAnswerable, IsPreparedFor, texts_of};

use ads_stream::Verdict;
use book_fates::{Delivery, Prepared, Reading};
use book_streams::Streams;
use call_journal::DriverEvent;
use xc_base::{Authority, Kind, List, Text};

/// A response that can be read, of a kind that was asked for on its stream.
#[derive(Drop)]
pub struct Answerable {
    /// On whose stream it came.
    pub authority: Authority,
    /// The kind of its resources.
    pub kind: Kind,
    /// Its version.
    pub version: Text,
    /// Its nonce.
    pub nonce: Text,
    /// Its resources in their order.
    pub parts: List<Delivery>,
    /// The pattern texts at which their checks stopped.
    pub refused: List<Text>,
}

/// The kind of a response, where it was asked for.
fn asked_kind(streams: &Streams, authority: Authority, kind: Option<Kind>) -> Option<Kind>
    requires { authority.0 < length streams.now.states }
    ensures kind { IfSome result (λ asked. kind ≡ Some asked) }
    ensures asked { IfSome result (λ asked. (s : Setting) (past : List EntryValue) → streams.now.states ≡ states_of s past → history.is_asked authority asked past ≡ true) }
    ensures unasked { result ≡ None → (s : Setting) (past : List EntryValue) (k : KindValue) → streams.now.states ≡ states_of s past → kind ≡ Some k → history.is_asked authority k past ≡ false }
{
    match kind {
        Some(kind) if streams.is_asked(authority, kind) => Some(kind),
        _ => None,
    }
}

/// A response on the stream of an authority, where it is answered; else the verdict.
fn judge_response(
    streams: &Streams,
    authority: Authority,
    prepared: Prepared,
) -> Result<Answerable, Verdict>
    requires known { authority.0 < length streams.now.states }
    requires prepared { IsPrepared prepared }
    ensures answered { IfOk result (λ response. (boot : BootstrapValue) (target : TargetValue) (past : List EntryValue) → streams.now.states ≡ states_of (setting_of boot target) past → IsAnswerable (setting_of boot target) past (EventValue.Response authority prepared.payload) response) }
    ensures deliverable { IfOk result AreDeliverable }
    ensures whose { IfOk result (λ response. response.authority ≡ authority) }
    ensures texts { IfOk result (λ response. response.refused ≡ prepared.refused) }
    ensures unanswered { IfErr result (λ verdict. history.answered_kind verdict ≡ None) }
    ensures verdict { IfErr result (λ verdict. (boot : BootstrapValue) (target : TargetValue) (past : List EntryValue) → streams.now.states ≡ states_of (setting_of boot target) past → verdict ≡ history.verdict (setting_of boot target) past (EventValue.Response authority prepared.payload) []) }
{
    if !streams.is_up(authority) {
        return Err(Verdict::Closed);
    }
    let Prepared {
        reading,
        refused,
        ..
    } = prepared;
    match reading {
        Reading::Unreadable => Err(Verdict::Unreadable),
        Reading::Read {
            kind,
            version,
            nonce,
            parts,
        } => {
            let Some(kind) = asked_kind(streams, authority, kind) else {
                return Err(Verdict::Ignored);
            };
            Ok(Answerable {
                authority,
                kind,
                version,
                nonce,
                parts,
                refused,
            })
        }
    }
}

/// The verdict on a loss.
fn verdict_on_loss(streams: &Streams, authority: Authority) -> Verdict
    requires { authority.0 < length streams.now.states }
    ensures unanswered { history.answered_kind result ≡ None }
    ensures verdict { (s : Setting) (past : List EntryValue) → streams.now.states ≡ states_of s past → result ≡ history.verdict s past (EventValue.Lost authority) [] }
{
    if streams.is_up(authority) {
        Verdict::Done
    } else {
        Verdict::Closed
    }
}

/// The response that is answered, else the verdict on an event that brings none. It takes no memory.
pub fn judge(
    streams: &Streams,
    event: &DriverEvent,
    prepared: Option<Prepared>,
) -> Result<Answerable, Verdict>
    requires known { IfSome (authority_in event.now) (λ a. a.0 < length streams.now.states) }
    requires prepared { IsPreparedFor event.now prepared }
    ensures answered { IfOk result (λ response. (boot : BootstrapValue) (target : TargetValue) (past : List EntryValue) → streams.now.states ≡ states_of (setting_of boot target) past → IsAnswerable (setting_of boot target) past event.now response) }
    ensures deliverable { IfOk result AreDeliverable }
    ensures whose { IfOk result (λ response. authority_in event.now ≡ Some response.authority) }
    ensures texts { IfOk result (λ response. response.refused ≡ texts_of prepared) }
    ensures unanswered { IfErr result (λ verdict. history.answered_kind verdict ≡ None) }
    ensures verdict { IfErr result (λ verdict. (boot : BootstrapValue) (target : TargetValue) (past : List EntryValue) → streams.now.states ≡ states_of (setting_of boot target) past → verdict ≡ history.verdict (setting_of boot target) past event.now []) }
{
    match (event, prepared) {
        (DriverEvent::Response { authority, .. }, Some(prepared)) => {
            judge_response(streams, *authority, prepared)
        }
        (DriverEvent::Lost(authority), _) => Err(verdict_on_loss(streams, *authority)),
        _ => Err(Verdict::Done),
    }
}
