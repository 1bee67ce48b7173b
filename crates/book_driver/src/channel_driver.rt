//! A driver's whole step.
ghost use Rattle.std.specs.Prelude.{◌≡◌, ◌<◌, ◌≤◌, ◌+◌, ◌^◌, List, [], length, IfOk, IfSome};
ghost use Rattle.xc_base.specs.declared.names.Kind.TheVariants.{Listener as ListenerKind};
ghost use Rattle.call_journal.specs.declared.entry.Entry.{Entry as EntryValue};
ghost use Rattle.book_trees.specs.xds_history.Setting.{Setting, setting_of};
ghost use Rattle.driver_step.specs.book_streams.StreamsLaws.{authority_in};
ghost use Rattle.book_hearing.specs.HeardEvents.{IsPreparedFor};
ghost use Rattle.book_driver.specs.Courses.{IsRepeat};
ghost use Rattle.book_driver.specs.DriverKept.{HasDriven, IsDriverAt, IsDueAt, IsStepAt};

use crate::call_refs::CallRefs;
use crate::configured_trees::{ConfiguredTrees, Published};
use crate::subscriptions::Subscriptions;
use crate::watcher::Watcher;
use ads_stream::Verdict;
use book_trees::{Prepared, ReportedTrees};
use call_journal::{DriverEvent, Sent};
use std::alloc::Global;
use std::sync::ledger::Ledger;
use xc_base::{Key, List, Memory, Steps, Text};
use xds_bootstrap::Bootstrap;
use xds_name::Target;

/// What is kept of a channel but for its journal and its calls.
#[derive(Drop)]
pub struct Driver {
    /// The streams and the keys that are watched.
    pub subscriptions: Subscriptions,
    /// The configuration and its trees.
    pub trees: ConfiguredTrees,
}

/// What a driver's event comes to.
#[derive(Drop)]
pub struct Stepped {
    /// The verdict on it.
    pub verdict: Verdict,
    /// The requests that are due by it.
    pub sent: List<Sent>,
    /// The least reached key that is awaited.
    pub missing: Option<Key>,
    /// The pattern texts that are refused at it.
    pub refused: List<Text>,
    /// What is published, where a snapshot is due.
    pub published: Option<Published>,
}

impl Driver {
    /// What is kept of a channel with this bootstrap and target before the first entry. It fails for want of memory alone.
    pub fn new(alloc: Global, boot: Bootstrap, target: Target) -> Result<Driver, Memory>
        requires listener { target.key.kind ≡ ListenerKind }
        requires few { length boot.authorities ≤ 65536 }
        ensures { IfOk result (λ d. IsDriverAt (setting_of boot target) [] d) }
    {
        Ok(Driver {
            subscriptions: Subscriptions {
                watcher: Watcher::new(alloc, boot, target)?,
                last: None,
            },
            trees: ConfiguredTrees {
                trees: ReportedTrees::new(alloc),
                config: None,
            },
        })
    }

    /// Takes an event. A response comes with its prepared payload. `latest` is the number of the latest snapshot. A report of an
    /// endpoint's state or on bytes that break no stream, or a sweep, that isn't the driver's first entry counts no step where
    /// calls refer to what they referred to at the entry before. It fails for want of memory alone, and then nothing is said of
    /// what is kept.
    pub fn step<L: Ledger>(
        &mut self,
        event: &DriverEvent,
        prepared: Option<Prepared>,
        calls: CallRefs<'_>,
        latest: Option<u32>,
        steps: &mut Steps<L>,
    ) -> Result<Stepped, Memory>
        requires known { IfSome (authority_in event.now) (λ a. a.0 < length self.old.subscriptions.watcher.streams.states) }
        requires prepared { IsPreparedFor event.now prepared }
        requires few { IfSome latest (λ n. n + 1 < 2 ^ 32) }
        requires at { HasDriven self.old }
        ensures step { IfOk result (λ stepped. (s : Setting) (past : List EntryValue) → IsDueAt s past calls.entry latest self.old → IsStepAt s past event.now prepared stepped self.new) }
        ensures still { (s : Setting) (past : List EntryValue) → IsDueAt s past calls.entry latest self.old → IsRepeat s past event.now → steps.new ≡ steps.old }
    {
        self.trees.trees.came(event)?;
        let now = self.trees.trees.now;
        let renewal = self
            .subscriptions
            .answer(event, prepared, now, calls, steps)?;
        let published = self
            .trees
            .show(event, renewal.made, &renewal.others, latest)?;
        Ok(Stepped {
            verdict: renewal.verdict,
            sent: renewal.sent,
            missing: renewal.missing,
            refused: renewal.refused,
            published,
        })
    }
}
