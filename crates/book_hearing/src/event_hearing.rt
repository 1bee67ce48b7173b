//! A driver's event, as it is heard.
ghost use Rattle.std.specs.Prelude.{◌≡◌, ◌<◌, length, [], List, IfOk, IfSome, OnErr, Option, Some, None};
ghost use Rattle.call_journal.specs.declared.entry.Entry.{Entry as EntryValue};
ghost use Rattle.call_journal.specs.declared.event.DriverEvent.{DriverEvent as EventValue};
ghost use Rattle.xds_bootstrap.specs.declared.bootstrap.Bootstrap.{Bootstrap as BootstrapValue};
ghost use Rattle.xds_name.specs.declared.target.Target.{Target as TargetValue};
ghost use Rattle.book_fates.specs.resource_check.declared.delivery.Prepared.{Prepared as PreparedValue};
ghost use Rattle.book_fates.specs.xds_history.Setting.{Setting, setting_of};
ghost use Rattle.book_fates.specs.xds_history.Responses as history;
ghost use Rattle.book_fates.specs.Delivered.{IsReady};
ghost use Rattle.book_streams.specs.StreamsKept.{states_of};
ghost use Rattle.book_streams.specs.StreamsLaws.{authority_in};
ghost use Rattle.book_hearing.specs.HeardEvents.{AreDeliverable, IsAnswerable, IsHeard, IsPreparedFor, texts_of, texts_told};

use crate::judging::{Answerable, judge};
use ads_stream::Verdict;
use book_fates::{Answered, PartNames, Prepared};
use book_streams::{Streams, error_in};
use call_journal::DriverEvent;
use std::alloc::Global;
use xc_base::{List, Memory, Text};

/// What an event says.
#[derive(Drop)]
pub struct Heard {
    /// The verdict on it.
    pub verdict: Verdict,
    /// The pattern texts that are refused at it, each once, in the order in which the checks come to them.
    pub refused: List<Text>,
    /// The answered response that it brings.
    pub answered: Option<Answered>,
}

/// Answers a response: with an Ack where each resource is valid, else with a Nack.
fn answer(alloc: Global, streams: &mut Streams, response: Answerable) -> Result<Heard, Memory>
    requires known { response.authority.0 < length streams.old.states }
    requires deliverable { AreDeliverable response }
    ensures heard { IfOk result (λ heard. (s : Setting) (past : List EntryValue) (event : EventValue) → streams.old.states ≡ states_of s past → IsAnswerable s past event response → IsHeard s past event streams.new.states heard) }
    ensures ready { IfOk result (λ heard. IfSome heard.answered IsReady) }
    ensures texts { IfOk result (λ heard. (prepared : Option PreparedValue) → response.refused ≡ texts_of prepared → heard.refused ≡ texts_told heard.answered prepared) }
    ensures told { streams.new.told ≡ streams.old.told }
    ensures err { OnErr result (streams.new ≡ streams.old) }
{
    let names = PartNames::asked(alloc, response.kind, response.parts.as_slice())?;
    let error = error_in(alloc, response.parts.as_slice())?;
    let verdict = streams.response(
        response.authority,
        response.kind,
        &response.version,
        &response.nonce,
        error.as_ref(),
    )?;
    Ok(Heard {
        verdict,
        refused: response.refused,
        answered: Some(Answered {
            authority: response.authority,
            kind: response.kind,
            parts: response.parts,
            names,
        }),
    })
}

/// An event with a verdict that is no answer.
fn leave(alloc: Global, streams: &mut Streams, event: &DriverEvent, verdict: Verdict) -> Heard
    requires known { IfSome (authority_in event.now) (λ a. a.0 < length streams.old.states) }
    requires unanswered { history.answered_kind verdict ≡ None }
    ensures heard { (s : Setting) (past : List EntryValue) → streams.old.states ≡ states_of s past → verdict ≡ history.verdict s past event.now [] → IsHeard s past event.now streams.new.states result }
    ensures none { result.answered ≡ None }
    ensures texts { result.refused ≡ [] }
    ensures told { streams.new.told ≡ streams.old.told }
{
    streams.turn(event, verdict);
    Heard {
        verdict,
        refused: List::new(alloc),
        answered: None,
    }
}

/// Hears an event, and lets the streams follow it: its verdict, the pattern texts that are refused at it, and the answered
/// response that it brings. A response comes with its prepared payload. It fails for want of memory alone, and then the
/// streams are as before.
pub fn hear(
    alloc: Global,
    streams: &mut Streams,
    event: &DriverEvent,
    prepared: Option<Prepared>,
) -> Result<Heard, Memory>
    requires known { IfSome (authority_in event.now) (λ a. a.0 < length streams.old.states) }
    requires prepared { IsPreparedFor event.now prepared }
    ensures heard { IfOk result (λ heard. (boot : BootstrapValue) (target : TargetValue) (past : List EntryValue) → streams.old.states ≡ states_of (setting_of boot target) past → IsHeard (setting_of boot target) past event.now streams.new.states heard) }
    ensures ready { IfOk result (λ heard. IfSome heard.answered IsReady) }
    ensures texts { IfOk result (λ heard. heard.refused ≡ texts_told heard.answered prepared) }
    ensures told { streams.new.told ≡ streams.old.told }
    ensures err { OnErr result (streams.new ≡ streams.old) }
{
    match judge(streams, event, prepared) {
        Ok(response) => answer(alloc, streams, response),
        Err(verdict) => Ok(leave(alloc, streams, event, verdict)),
    }
}
