//! What is watched, and what the driver's last entry settled of it.
ghost use Rattle.std.specs.Prelude.{◌≡◌, ◌<◌, List, None, Some, length, IfOk, IfSome, OnOk};
ghost use Rattle.std.specs.Option.{option_or};
ghost use Rattle.xds_config.specs.Configs.{IsLawfulConfig};
ghost use Rattle.dep_manager.specs.ShownEntries.{StandAsShown};
ghost use Rattle.call_journal.specs.declared.entry.Entry.{Entry as EntryValue};
ghost use Rattle.book_trees.specs.xds_history.Setting.{Setting};
ghost use Rattle.book_trees.specs.xds_history.HistoryLaws.{is_report};
ghost use Rattle.driver_step.specs.book_streams.StreamsLaws.{authority_in};
ghost use Rattle.book_hearing.specs.HeardEvents.{IsPreparedFor};
ghost use Rattle.book_trees.specs.xds_history.Pages.{pages};
ghost use Rattle.book_driver.specs.ReferredClusters.{AreReferredAt};
ghost use Rattle.book_driver.specs.WatcherKept.{HasWatched, IsTimely, IsWatcherAt};
ghost use Rattle.book_driver.specs.Subscribed.{AreSubscribedAt, HasSubscribed, IsAnsweredAt};
ghost use Rattle.book_driver.specs.Courses.{IsCourse, IsRepeat, quiet_answer};

use crate::call_refs::CallRefs;
use crate::key_renewal::Renewal;
use crate::marking::is_broken;
use crate::watcher::Watcher;
use ads_stream::Verdict;
use book_trees::Prepared;
use call_journal::DriverEvent;
use place_marks::Marks;
use std::alloc::Global;
use std::sync::ledger::Ledger;
use xc_base::{Key, List, Memory, Steps, Time};

/// What the driver's last entry settled.
#[derive(Drop)]
pub struct Settled {
    /// The least reached key that is awaited.
    pub missing: Option<Key>,
}

/// The streams and the keys that are watched, and what the driver's last entry settled of them.
#[derive(Drop)]
pub struct Subscriptions {
    /// The streams and the keys.
    pub watcher: Watcher,
    /// What the driver's last entry settled; none before its first.
    pub last: Option<Settled>,
}

/// How an event is answered.
#[derive(Drop)]
enum Course {
    /// As the driver's last entry left it: nothing is reached anew and nothing asked.
    Repeats(Settled),
    /// By what it brings.
    Renews,
}

/// Whether an event is a report of an endpoint's state or on bytes that break no stream, or a sweep.
fn is_report(event: &DriverEvent) -> bool
    ensures { result ≡ is_report event.now }
{
    match event {
        DriverEvent::Endpoint { .. } | DriverEvent::Sweep => true,
        DriverEvent::Bytes { how, .. } => !is_broken(*how),
        _ => false,
    }
}

/// A copy of a key, if there is one.
fn copy_of(key: &Option<Key>) -> Result<Option<Key>, Memory>
    ensures { IfOk result (λ copy. copy ≡ key.now) }
{
    match key {
        Some(key) => Ok(Some(key.clone()?)),
        None => Ok(None),
    }
}

/// The answer that changes nothing, where this key is awaited.
fn repeat(alloc: Global, missing: Option<Key>) -> Renewal
    ensures { result ≡ quiet_answer missing result.others }
{
    Renewal {
        verdict: Verdict::Done,
        refused: List::new(alloc),
        sent: List::new(alloc),
        missing,
        made: None,
        others: Marks::none(alloc, 0),
    }
}

impl Subscriptions {
    /// How an event is answered, by what the driver's last entry settled, which is taken out.
    fn take_course(&mut self, event: &DriverEvent, calls: CallRefs<'_>) -> Result<Course, Memory>
        ensures course { IfOk result (IsCourse event.now calls.entry self.old) }
        ensures rest { self.new ≡ record { watcher = self.old.watcher; last = None } }
    {
        let Some(last) = self.last.take() else {
            return Ok(Course::Renews);
        };
        if !is_report(event) {
            return Ok(Course::Renews);
        }
        if calls.are_served(self.watcher.alloc, &self.watcher.deps)? {
            return Ok(Course::Repeats(last));
        }
        Ok(Course::Renews)
    }

    /// Answers an event by what it brings.
    fn renew<L: Ledger>(
        &mut self,
        event: &DriverEvent,
        prepared: Option<Prepared>,
        now: Time,
        calls: CallRefs<'_>,
        steps: &mut Steps<L>,
    ) -> Result<Renewal, Memory>
        requires known { IfSome (authority_in event.now) (λ a. a.0 < length self.old.watcher.streams.states) }
        requires prepared { IsPreparedFor event.now prepared }
        requires at { HasWatched self.old.watcher }
        ensures step { IfOk result (λ r. (s : Setting) (past : List EntryValue) → IsWatcherAt s past self.old.watcher → IsTimely s past event.now now calls.entry self.old.watcher.deps.shown → IsAnsweredAt s past event.now prepared r self.new) }
        ensures lawful { IfOk result (λ r. IfSome r.made IsLawfulConfig) }
        ensures others { IfOk result (λ r. IfSome r.made (λ config. StandAsShown r.others self.old.watcher.deps.shown config)) }
        ensures shown { IfOk result (λ r. self.new.watcher.deps.shown ≡ option_or r.made self.old.watcher.deps.shown) }
    {
        let renewal = self.watcher.renew(event, prepared, now, calls, steps)?;
        let missing = copy_of(&renewal.missing)?;
        self.last = Some(Settled { missing });
        Ok(renewal)
    }

    /// Answers a report as the driver's last entry left it.
    fn repeat(&mut self, last: Settled) -> Result<Renewal, Memory>
        ensures answer { IfOk result (λ r. r ≡ quiet_answer last.missing r.others) }
        ensures last { OnOk result (self.new ≡ record { watcher = self.old.watcher; last = Some last }) }
    {
        let missing = copy_of(&last.missing)?;
        self.last = Some(last);
        Ok(repeat(self.watcher.alloc, missing))
    }

    /// Answers an event at a time, with what calls refer to. A report of an endpoint's state or on bytes that break no stream, or
    /// a sweep, repeats what the driver's last entry settled, unless calls refer to clusters that aren't configured or no longer
    /// to one that is so for them alone; then no step is counted. It fails for want of memory alone, and then nothing is said of
    /// what is kept.
    pub fn answer<L: Ledger>(
        &mut self,
        event: &DriverEvent,
        prepared: Option<Prepared>,
        now: Time,
        calls: CallRefs<'_>,
        steps: &mut Steps<L>,
    ) -> Result<Renewal, Memory>
        requires known { IfSome (authority_in event.now) (λ a. a.0 < length self.old.watcher.streams.states) }
        requires prepared { IsPreparedFor event.now prepared }
        requires at { HasSubscribed self.old }
        ensures step { IfOk result (λ r. (s : Setting) (past : List EntryValue) → AreSubscribedAt s past self.old → IsTimely s past event.now now calls.entry self.old.watcher.deps.shown → IsAnsweredAt s past event.now prepared r self.new) }
        ensures lawful { IfOk result (λ r. IfSome r.made IsLawfulConfig) }
        ensures others { IfOk result (λ r. IfSome r.made (λ config. StandAsShown r.others self.old.watcher.deps.shown config)) }
        ensures shown { IfOk result (λ r. self.new.watcher.deps.shown ≡ option_or r.made self.old.watcher.deps.shown) }
        ensures still { (s : Setting) (past : List EntryValue) → AreSubscribedAt s past self.old → AreReferredAt (pages s past) self.old.watcher.deps.shown calls.entry → IsRepeat s past event.now → steps.new ≡ steps.old }
    {
        match self.take_course(event, calls)? {
            Course::Repeats(last) => {
                let renewal = self.repeat(last)?;
                Ok(renewal)
            }
            Course::Renews => {
                let renewal = self.renew(event, prepared, now, calls, steps)?;
                Ok(renewal)
            }
        }
    }
}
