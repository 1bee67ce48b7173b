//! What an event comes to for the streams and the keys that are watched.
ghost use Rattle.std.specs.Prelude.{◌≡◌, ◌<◌, ◌↔◌, List, length, IfOk, IfSome, IsNone, IsSome, unwrap_or, OnOk};
ghost use Rattle.std.specs.List.Sorted.{IsStrictlySortedBy};
ghost use Rattle.std.specs.Option.{option_or};
ghost use Rattle.xc_keys.specs.Keys.{key_cmp};
ghost use Rattle.dep_manager.specs.ShownEntries.{StandAsShown};
ghost use Rattle.xds_config.specs.Configs.{IsLawfulConfig};
ghost use Rattle.call_journal.specs.declared.entry.Entry.{Entry as EntryValue};
ghost use Rattle.book_trees.specs.xds_history.Setting.{Setting};
ghost use Rattle.dep_manager.specs.KeptAssemblies.{HaveChanged, IsRightBy};
ghost use Rattle.driver_step.specs.book_fates.FateSteps.{WatchesOnly};
ghost use Rattle.driver_step.specs.book_streams.StreamsLaws.{authority_in, came_with};
ghost use Rattle.book_hearing.specs.HeardEvents.{IsPreparedFor};
ghost use Rattle.book_driver.specs.WatcherKept.{HasWatched, IsHeardBy, IsTimely, IsWatcherAt};
ghost use Rattle.book_driver.specs.Renewals.{IsRenewalAt, IsToldBy};

use crate::call_refs::CallRefs;
use crate::marking::{Brought, mark};
use crate::watcher::Watcher;
use ads_stream::Verdict;
use book_hearing::hear;
use book_trees::Prepared;
use call_journal::{DriverEvent, Sent};
use driver_step::Reached;
use place_marks::Marks;
use std::sync::ledger::Ledger;
use xc_base::{Key, List, Memory, Shared, Steps, Text, Time};
use xds_config::Config;

/// What an event comes to.
#[derive(Drop)]
pub struct Renewal {
    /// The verdict on it.
    pub verdict: Verdict,
    /// The pattern texts that are refused at it.
    pub refused: List<Text>,
    /// The requests that are due by it.
    pub sent: List<Sent>,
    /// The least reached key that is awaited.
    pub missing: Option<Key>,
    /// The configuration that was made, which is there exactly where no reached key is awaited.
    pub made: Option<Shared<Config>>,
    /// For each of its clusters, whether its entry may be another one than stood at its place in the configuration that was made
    /// last before this one.
    pub others: Marks,
}

/// What is taken in of an event.
#[derive(Drop)]
struct Intake {
    /// The verdict on it.
    verdict: Verdict,
    /// The pattern texts that are refused at it.
    refused: List<Text>,
    /// The watched keys of which something else is known by it.
    changed: List<Key>,
}

impl Watcher {
    /// Hears an event, and takes in what it brings for the watched keys. It fails for want of memory alone, and then nothing
    /// is said of what is kept.
    fn take_in<L: Ledger>(
        &mut self,
        event: &DriverEvent,
        prepared: Option<Prepared>,
        now: Time,
        steps: &mut Steps<L>,
    ) -> Result<Intake, Memory>
        requires known { IfSome (authority_in event.now) (λ a. a.0 < length self.old.streams.states) }
        requires prepared { IsPreparedFor event.now prepared }
        requires only { WatchesOnly self.old.fates.cache self.old.fates.reached }
        requires rising { IsStrictlySortedBy key_cmp self.old.fates.reached }
        ensures heard { IfOk result (λ heard. (s : Setting) (past : List EntryValue) → IsWatcherAt s past self.old → IsHeardBy s past (came_with event.now heard.verdict heard.refused) now self.new) }
        ensures told { IfOk result (λ heard. (s : Setting) (past : List EntryValue) → IsWatcherAt s past self.old → IsToldBy s past event.now prepared heard.verdict heard.refused) }
        ensures shown { OnOk result (self.new.deps.shown ≡ self.old.deps.shown) }
        ensures changed { IfOk result (λ heard. IsRightBy self.old.boot.authorities self.old.fates.cache self.old.deps → HaveChanged self.new.boot.authorities self.new.deps self.new.fates.cache heard.changed) }
    {
        let heard = hear(self.alloc, &mut self.streams, event, prepared)?;
        let brought = Brought {
            verdict: heard.verdict,
            answered: heard.answered,
        };
        let changed = mark(&mut self.fates, event, brought, now, steps)?;
        Ok(Intake {
            verdict: heard.verdict,
            refused: heard.refused,
            changed,
        })
    }

    /// Takes in an event at a time, with what calls refer to: its verdict, what is awaited and configured by it,
    /// and the requests that are due. It fails for want of memory alone, and then nothing is said of what is kept.
    pub fn renew<L: Ledger>(
        &mut self,
        event: &DriverEvent,
        prepared: Option<Prepared>,
        now: Time,
        calls: CallRefs<'_>,
        steps: &mut Steps<L>,
    ) -> Result<Renewal, Memory>
        requires known { IfSome (authority_in event.now) (λ a. a.0 < length self.old.streams.states) }
        requires prepared { IsPreparedFor event.now prepared }
        requires at { HasWatched self.old }
        ensures step { IfOk result (λ r. (s : Setting) (past : List EntryValue) → IsWatcherAt s past self.old → IsTimely s past event.now now calls.entry self.old.deps.shown → IsRenewalAt s past event.now prepared r self.new) }
        ensures whole { IfOk result (λ r. IsSome r.made ↔ IsNone r.missing) }
        ensures others { IfOk result (λ r. IfSome r.made (λ config. StandAsShown r.others self.old.deps.shown config)) }
        ensures shown { IfOk result (λ r. self.new.deps.shown ≡ option_or r.made self.old.deps.shown) }
        ensures lawful { IfOk result (λ r. IfSome r.made IsLawfulConfig) }
    {
        let heard = self.take_in(event, prepared, now, steps)?;
        let outcome = self.assemble(&heard.changed, calls, steps)?;
        let reached = Reached {
            keys: outcome.reached,
            stays: outcome.stays,
            awaits: outcome.missing.is_some(),
        };
        let sent = self.ask(reached, now, steps)?;
        Ok(Renewal {
            verdict: heard.verdict,
            refused: heard.refused,
            sent,
            missing: outcome.missing,
            made: outcome.config,
            others: outcome.others,
        })
    }
}
