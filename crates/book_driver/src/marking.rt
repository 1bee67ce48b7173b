//! What an event brings for the watched keys.
ghost use Rattle.std.specs.Prelude.{◌≡◌, List, None, Some, IfOk, OnOk, IfSome, option_map, if◌then◌else◌};
ghost use Rattle.std.specs.List.Sorted.{IsStrictlySortedBy};
ghost use Rattle.xc_keys.specs.Keys.{key_cmp};
ghost use Rattle.call_journal.specs.declared.entry.Entry.{Entry as EntryValue};
ghost use Rattle.book_trees.specs.xds_history.Setting.{Setting};
ghost use Rattle.book_trees.specs.xds_history.Responses.{Came, answered};
ghost use Rattle.book_trees.specs.xds_history.Streams.{is_broken, is_unreadable};
ghost use Rattle.book_trees.specs.xds_history.declared.page.Page.{Page as PageValue};
ghost use Rattle.dep_manager.specs.KeptAssemblies.{AreChanges};
ghost use Rattle.driver_step.specs.book_fates.FateSteps.{WatchesOnly};
ghost use Rattle.driver_step.specs.book_fates.Delivered.{IsReady, delivered_by, delivered_in};
ghost use Rattle.driver_step.specs.book_fates.FatesKept.{IsKeptAt, IsMarkedAt, is_moment, turned_by};

use ads_stream::Verdict;
use call_journal::{BytesHow, DriverEvent};
use driver_step::{Answered, Fates};
use std::sync::ledger::Ledger;
use xc_base::{Authority, Key, List, Memory, Steps, Time};

/// The authority, where the test holds.
fn authority_if(test: bool, authority: Authority) -> Option<Authority>
    ensures { result ≡ (if test then Some authority else None) }
{
    if test { Some(authority) } else { None }
}

/// Whether bytes came that break their stream. It takes no memory.
pub fn is_broken(how: BytesHow) -> bool
    ensures { result ≡ is_broken how }
{
    matches!(how, BytesHow::Compressed | BytesHow::TooLong(_))
}

/// Whether a verdict says that a response can't be read.
fn is_unreadable(verdict: Verdict) -> bool
    ensures { result ≡ is_unreadable verdict }
{
    matches!(verdict, Verdict::Unreadable)
}

/// Whose stream an event with this verdict opens or ends. It takes no memory.
pub fn turned_by(event: &DriverEvent, verdict: Verdict) -> Option<Authority>
    ensures { result ≡ turned_by event.now verdict }
{
    match event {
        DriverEvent::Opened(authority) | DriverEvent::Lost(authority) => Some(*authority),
        DriverEvent::Response { authority, .. } => {
            authority_if(is_unreadable(verdict), *authority)
        }
        DriverEvent::Bytes { authority, how } => authority_if(is_broken(*how), *authority),
        _ => None,
    }
}

/// Whether time is told.
fn is_moment(event: &DriverEvent) -> bool
    ensures { result ≡ is_moment event.now }
{
    matches!(event, DriverEvent::Moment(_))
}

/// Takes in an event that brings no answered response: time passes, or a stream turns. It answers the keys that were waited
/// for in vain, and fails for want of memory alone.
fn pass_or_turn(
    fates: &mut Fates,
    event: &DriverEvent,
    verdict: Verdict,
    now: Time,
) -> Result<List<Key>, Memory>
    ensures changes { IfOk result (AreChanges fates.old.cache fates.new.cache) }
    ensures marked { OnOk result ((s : Setting) (c : Came) (past : List EntryValue) (ps : List PageValue) → c.event ≡ event.now → c.verdict ≡ verdict → answered s c ≡ None → IsKeptAt past ps fates.old → IsMarkedAt s c past ps now (turned_by event.now verdict) fates.new) }
{
    if is_moment(event) {
        let expired = fates.pass(now)?;
        return Ok(expired);
    }
    fates.turn(turned_by(event, verdict))?;
    Ok(List::new(fates.alloc))
}

/// What an event brings for the watched keys.
#[derive(Drop)]
pub struct Brought {
    /// The verdict on it.
    pub verdict: Verdict,
    /// The response that it is, where that is answered.
    pub answered: Option<Answered>,
}

/// Takes in what an event brings for the watched keys: an answered response, or time, or that a stream turns (Envoy's xDS
/// transport, gRFC A47). It answers the keys of which something else is known by it, and fails for want of memory alone.
pub fn mark<L: Ledger>(
    fates: &mut Fates,
    event: &DriverEvent,
    brought: Brought,
    now: Time,
    steps: &mut Steps<L>,
) -> Result<List<Key>, Memory>
    requires ready { IfSome brought.answered IsReady }
    requires only { WatchesOnly fates.old.cache fates.old.reached }
    requires rising { IsStrictlySortedBy key_cmp fates.old.reached }
    ensures changes { IfOk result (AreChanges fates.old.cache fates.new.cache) }
    ensures marked { OnOk result ((s : Setting) (c : Came) (past : List EntryValue) (ps : List PageValue) → c.event ≡ event.now → c.verdict ≡ brought.verdict → option_map delivered_in brought.answered ≡ option_map delivered_by (answered s c) → IsKeptAt past ps fates.old → IsMarkedAt s c past ps now (turned_by event.now brought.verdict) fates.new) }
{
    let Brought { verdict, answered } = brought;
    match answered {
        Some(response) => {
            let changed = fates.take(response, steps)?;
            Ok(changed)
        }
        None => {
            let expired = pass_or_turn(fates, event, verdict, now)?;
            Ok(expired)
        }
    }
}
