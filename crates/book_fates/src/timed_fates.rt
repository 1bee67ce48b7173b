//! The fates of watched keys, and their timers.
ghost use Rattle.std.specs.Prelude.{◌≡◌, ◌≤◌, ◌+◌, ◌∷◌, ◌++◌, [], List, Option, Some, None, true, false, IsOk, OnOk, IfOk, IfSome, length, option_map, unwrap_or, if◌then◌else◌};
ghost use Rattle.std.specs.List.Sorted.{IsStrictlySortedBy};
ghost use Rattle.xc_base.specs.declared.names.Authority.{Authority as AuthorityValue};
ghost use Rattle.xc_keys.specs.Keys.{key_cmp};
ghost use Rattle.xc_base.specs.declared.names.Time.{Time as TimeValue};
ghost use Rattle.call_journal.specs.declared.event.DriverEvent.{DriverEvent as EventValue};
ghost use Rattle.call_journal.specs.declared.entry.Entry.{Entry as EntryValue};
ghost use Rattle.config_assembly.specs.Watching.{IsWatching};
ghost use Rattle.xds_history.specs.Setting.{Setting};
ghost use Rattle.xds_history.specs.Responses.{Came, answered};
ghost use Rattle.xds_history.specs.declared.page.Page.{Page as PageValue};
ghost use Rattle.xds_history.specs.Fates.{deletes, marked, watch};
ghost use Rattle.book_fates.specs.declared.timed_fates.Fates.{Fates as FatesValue};
ghost use Rattle.book_fates.specs.FateSteps.{AreListed, AreOf, Stepped, WatchesOnly, most_deleted, out_among, told_step};
ghost use Rattle.book_fates.specs.Delivered.{IsReady, delivered_by, delivered_in, told_as};
ghost use Rattle.book_fates.specs.Timing.{AreAskedBy, AreTimedBut, NoneWanted, StartedBy, TurnsAt, first_among};
ghost use Rattle.book_fates.specs.FatesKept.{IsKeptAt, IsLeftBy, IsMarkedAt, StayTimed, is_moment};

use crate::answered::Answered;
use crate::fates::take_told;
use crate::timing::{
    expire, idle_keys, start_asked, stop_lost, stop_turned, stop_unreached, wanted_keys,
};
use call_journal::Sent;
use config_assembly::SharedKeys;
use std::alloc::Global;
use std::sync::ledger::Ledger;
use watch_timers::Timers;
use xc_base::{Authority, Key, List, Memory, Steps, Time};
use xds_cache::Cache;

/// What is reached at an entry.
#[derive(Drop)]
pub struct Reached {
    /// The keys, in their order, each once.
    pub keys: SharedKeys,
    /// Whether they are known to be those that were reached before.
    pub stays: bool,
    /// Whether any of them is awaited.
    pub awaits: bool,
}

/// What is kept of the keys that are watched.
#[derive(Drop)]
pub struct Fates {
    /// Where lists are made.
    pub alloc: Global,
    /// What is known of each.
    pub cache: Cache,
    /// Since when each one that is waited for was asked for, in ms.
    pub timers: Timers,
    /// The keys, in their order, each once.
    pub reached: SharedKeys,
    /// Those of them of which it isn't known that they have a timer where they are awaited; none where it is known of no key.
    pub untimed: Option<List<Key>>,
}

/// These keys, where the test holds.
fn keys_if(test: bool, keys: Option<List<Key>>) -> Option<List<Key>>
    ensures { result ≡ (if test then keys else None) }
{
    if test { keys } else { None }
}

/// These keys, or else those that are reached.
fn keys_or<'a>(keys: &'a Option<List<Key>>, reached: &'a SharedKeys) -> &'a [Key]
    ensures { result.now ≡ unwrap_or keys.now reached.now }
{
    match keys {
        Some(keys) => keys.as_slice(),
        None => reached.as_slice(),
    }
}

/// Adds copies of keys to a list.
fn push_copies(keys: &mut List<Key>, more: &[Key]) -> Result<(), Memory>
    ensures { OnOk result (keys.new ≡ keys.old ++ more.now) }
{
    for key in more {
        keys.push(key.clone()?)?;
    }
    Ok(())
}

/// These keys and others behind them, where there is a list of them.
fn with_keys(keys: Option<List<Key>>, more: &[Key]) -> Result<Option<List<Key>>, Memory>
    ensures { IfOk result (λ all. all ≡ option_map (λ keys. keys ++ more.now) keys) }
{
    let Some(mut keys) = keys else {
        return Ok(None);
    };
    push_copies(&mut keys, more)?;
    Ok(Some(keys))
}

impl Fates {
    /// Takes in an answered response. Valid resources replace what is known of their keys; an
    /// invalid one leaves a value that is there (Envoy's xDS transport, gRFC A47); listeners and clusters that the response
    /// lacks are deleted. What came or was deleted is waited for no longer. It answers the keys of which something else is known
    /// from now on; of timers only theirs are looked at. It fails for want of memory alone, and then nothing is said of what is
    /// kept.
    pub fn take<L: Ledger>(
        &mut self,
        response: Answered,
        steps: &mut Steps<L>,
    ) -> Result<List<Key>, Memory>
        requires ready { IsReady response }
        requires only { WatchesOnly self.old.cache self.old.reached }
        requires rising { IsStrictlySortedBy key_cmp self.old.reached }
        ensures step { OnOk result (Stepped self.old.cache self.new.cache (told_step (told_as (delivered_in response)))) }
        ensures listed { IfOk result (AreListed self.old.cache self.new.cache []) }
        ensures theirs { IfOk result (AreOf response.authority response.kind) }
        ensures few { IfOk result (λ changed. deletes response.kind ≡ false → length changed ≤ length response.parts) }
        ensures cost { IfOk result (λ changed. steps.new ≤ steps.old + most_deleted response.kind self.old.reached + length changed) }
        ensures marked { OnOk result ((s : Setting) (c : Came) (past : List EntryValue) (ps : List PageValue) (now : TimeValue) → option_map delivered_by (answered s c) ≡ Some (delivered_in response) → IsKeptAt past ps self.old → IsMarkedAt s c past ps now None self.new) }
    {
        let changed = take_told(
            self.alloc,
            &mut self.cache,
            response,
            self.reached.as_slice(),
            steps,
        )?;
        stop_lost(&mut self.timers, &self.cache, changed.as_slice(), steps);
        Ok(changed)
    }

    /// Takes in a moment, in ms: each key that was asked for 15,000 ms ago or earlier, on a stream that is up, and is still
    /// waited for, is absent from now on (Envoy's xDS transport, "Knowing When a Requested Resource Does Not Exist"). It answers
    /// these keys, and fails for want of memory alone.
    pub fn pass(&mut self, now: Time) -> Result<List<Key>, Memory>
        ensures step { IfOk result (λ keys. Stepped self.old.cache self.new.cache (out_among keys)) }
        ensures marked { OnOk result ((s : Setting) (c : Came) (past : List EntryValue) (ps : List PageValue) (time : TimeValue) → c.event ≡ EventValue.Moment time → IsKeptAt past ps self.old → IsMarkedAt s c past ps now None self.new) }
    {
        let keys = expire(&mut self.cache, &mut self.timers, now)?;
        Ok(keys)
    }

    /// Takes in that the stream of an authority was opened or ended, or none: no timer runs on over that. It looks at none but
    /// the keys whose timers run, and where none was opened or ended at no key. It fails for want of memory alone.
    pub fn turn(&mut self, turn: Option<Authority>) -> Result<(), Memory>
        ensures cache { OnOk result (self.new.cache ≡ self.old.cache) }
        ensures marked { OnOk result ((s : Setting) (c : Came) (past : List EntryValue) (ps : List PageValue) (now : TimeValue) → answered s c ≡ None → is_moment c.event ≡ false → IsKeptAt past ps self.old → IsMarkedAt s c past ps now turn self.new) }
    {
        if turn.is_none() {
            return Ok(());
        }
        let turned = stop_turned(self.alloc, &mut self.timers, turn)?;
        self.untimed = with_keys(self.untimed.take(), turned.as_slice())?;
        Ok(())
    }

    /// Ends the timers of the watched keys that are no longer reached. Where the same keys stay reached it looks at none. It
    /// fails for want of memory alone.
    pub fn leave(&mut self, next: &Reached) -> Result<(), Memory>
        requires stays { next.now.stays ≡ true → next.now.keys ≡ self.old.reached }
        ensures cache { OnOk result (self.new.cache ≡ self.old.cache) }
        ensures left { OnOk result (IsLeftBy self.old self.new next.now.keys) }
    {
        if next.stays {
            return Ok(());
        }
        stop_unreached(
            self.alloc,
            &mut self.timers,
            self.reached.as_slice(),
            next.keys.as_slice(),
        )
    }

    /// Starts the timers of those of these keys that are wanted and asked for first. It answers those that are wanted and have no
    /// timer.
    fn start_first<L: Ledger>(
        &mut self,
        keys: &[Key],
        sent: &[Sent],
        now: Time,
        steps: &mut Steps<L>,
    ) -> Result<List<Key>, Memory>
        ensures cache { OnOk result (self.new.cache ≡ self.old.cache) }
        ensures started { OnOk result (StartedBy self.old.timers self.new.timers (first_among keys.now sent.now self.old.cache) now) }
        ensures timed { IfOk result (λ untimed. AreTimedBut untimed keys.now self.old.cache self.new.timers) }
        ensures cost { steps.new ≤ steps.old + length keys.now }
    {
        let wanted = wanted_keys(self.alloc, &self.cache, keys, steps)?;
        start_asked(&mut self.timers, wanted.as_slice(), sent, now)?;
        let idle = idle_keys(self.alloc, &self.timers, wanted.as_slice())?;
        Ok(idle)
    }

    /// Starts the timers of the reached keys that are wanted and asked for first. Where none is awaited it looks at no key, nor
    /// where nothing is sent, and where the same keys stay reached at none but those of which it isn't known that they have a
    /// timer.
    fn start<L: Ledger>(
        &mut self,
        next: &Reached,
        sent: &[Sent],
        now: Time,
        steps: &mut Steps<L>,
    ) -> Result<(), Memory>
        requires awaits { next.now.awaits ≡ false → NoneWanted self.old.cache next.now.keys }
        ensures cache { OnOk result (self.new.cache ≡ self.old.cache) }
        ensures started { OnOk result (StayTimed self.old next.now → StartedBy self.old.timers self.new.timers (first_among next.now.keys sent.now self.old.cache) now) }
        ensures timed { OnOk result (StayTimed self.old next.now → IfSome self.new.untimed (λ keys. AreTimedBut keys next.now.keys self.old.cache self.new.timers)) }
        ensures few { next.now.stays ≡ true → IfSome self.old.untimed (λ keys. steps.new ≤ steps.old + length keys) }
        ensures unsent { sent.now ≡ [] → steps.new ≡ steps.old }
    {
        let left = keys_if(next.stays, self.untimed.take());
        if !next.awaits {
            return Ok(());
        }
        if sent.is_empty() {
            self.untimed = left;
            return Ok(());
        }
        let untimed = self.start_first(keys_or(&left, &next.keys), sent, now, steps)?;
        self.untimed = Some(untimed);
        Ok(())
    }

    /// Starts timers once the cache watches what is reached and the requests are known, and the timers of what is no longer
    /// reached ended: a wanted key that is asked for first has one from now on. Where none is awaited it looks at no key, nor
    /// where nothing is sent, and where the same keys stay reached at none but those of which it isn't known that they have a
    /// timer. It fails for want of memory alone, and then nothing is said of what is kept.
    pub fn settle<L: Ledger>(
        &mut self,
        next: Reached,
        sent: &[Sent],
        now: Time,
        steps: &mut Steps<L>,
    ) -> Result<(), Memory>
        requires awaits { next.awaits ≡ false → NoneWanted self.old.cache next.keys }
        requires stays { next.stays ≡ true → next.keys ≡ self.old.reached }
        ensures cache { OnOk result (self.new.cache ≡ self.old.cache) }
        ensures few { next.stays ≡ true → IfSome self.old.untimed (λ keys. steps.new ≤ steps.old + length keys) }
        ensures unsent { sent.now ≡ [] → steps.new ≡ steps.old }
        ensures kept { OnOk result ((s : Setting) (c : Came) (past : List EntryValue) (ps : List PageValue) (page : PageValue) (turn : Option AuthorityValue) (marks : FatesValue) → IsMarkedAt s c past ps now turn marks → IsLeftBy marks self.old next.keys → IsWatching marks.cache self.old.cache next.keys → page.watched ≡ watch (marked s c past ps now) next.keys → page.now ≡ now → TurnsAt turn page → AreAskedBy sent.now next.keys past page → IsKeptAt (page.entry ∷ past) (page ∷ ps) self.new) }
    {
        self.start(&next, sent, now, steps)?;
        self.reached = next.keys;
        Ok(())
    }
}
