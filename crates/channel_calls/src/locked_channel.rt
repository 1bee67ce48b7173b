//! The channel: the lock round the Book.
ghost use Rattle.std.specs.Prelude.{◌≡◌, ◌⊎◌, ◌+◌, ◌<◌, ◌≤◌, length, map, IfErr, IfOk, OnErr, OnOk};
ghost use Rattle.std.specs.List.{range_with_len};
ghost use Rattle.std.specs.Sync.Mutex.{mutex_guard_value};
ghost use Rattle.xc_base.specs.declared.names.Kind.TheVariants.{Listener};
ghost use Rattle.xds_bootstrap.specs.Authorities.{AreAuthorities};
ghost use Rattle.xds_name.specs.Names.{resource_key};
ghost use Rattle.call_journal.specs.declared.plan.Count.{Count as CountValue};
ghost use Rattle.call_journal.specs.declared.plan.ListedEvent.{ListedEvent};
ghost use Rattle.route_match.specs.Routes.{route};
ghost use Rattle.book_progress.specs.ProgressKept.{most_entries};
ghost use Rattle.lane_checks.specs.xds_book.BookEntries.{first_lane};
ghost use Rattle.lane_checks.specs.xds_book.BookKept.{HasActors};
ghost use Rattle.lane_checks.specs.xds_book.BookViews.{pinned_front};
ghost use Rattle.channel_calls.specs.ChannelFaults.{IsCauseAt};
ghost use Rattle.channel_calls.specs.ChannelPlans.{HasChannelPlan, HasNext, HasUp};
ghost use Rattle.channel_calls.specs.LockedBooks.{IsAfterPin, IsDriven, IsFree, lane_ended, lane_held, lane_pinned};

use crate::call_gate::Gate;
use crate::channel_faults::ChanFault;
use crate::event_checks::prepared_event;
use crate::locked_book::Locked;
use crate::sleepers::Sleepers;
use call_journal::DriverEvent;
use cluster_tree::Snapshot;
use header_match::Patterns;
use lane_checks::{Book, GatedLine, Job, Lane, Pinned};
use route_match::RouteAnswer;
use snapshot_store::Archive;
use std::alloc::Global;
use std::marker::Model;
use std::sync::ledger::Ledger;
use std::sync::{Mutex, MutexGuard, Wait};
use std::time::Duration;
use xc_base::{Call, CallId, List, Memory, Shared, Steps};
use xds_bootstrap::Bootstrap;
use xds_name::Target;

/// For how many seconds a thread sleeps at most before it looks again whether the line for which it waits has ended.
const LONGEST_SLEEP: u64 = 3_600;

/// A Book of which many threads make the steps, each with the lane of its actor. It ends by the first call that finds a lane
/// that isn't of the Book, or no memory: each call that waits then, and each later one, is answered Ended with that fault.
#[derive(Drop)]
pub struct Channel<J: Job> {
    alloc: Global,
    locked: Mutex<Locked<J>>,
    sleepers: Sleepers,
}

impl<J: Job> Model for Channel<J> {
    ghost use Rattle.std.specs.Prelude.{length};
    ghost use Rattle.book_progress.specs.ProgressKept.{most_entries};
    ghost use Rattle.channel_calls.specs.ChannelPlans.{HasChannelPlan};

    ghost Value = { Unit {0} };

    ghost view = { λ c. tt };

    ghost invariant = { λ c. HasChannelPlan J.plan (length J.boot.authorities) most_entries };
}

impl<J: Job> Channel<J> {
    /// A channel in which nothing was done, with a lane for the driver and for each of so many callers. Its journal takes so
    /// many entries without memory.
    pub fn begin(
        alloc: Global,
        boot: Bootstrap,
        target: Target,
        callers: u16,
        room: u32,
        archive: Shared<Archive<Snapshot>>,
    ) -> Result<(Channel<J>, List<Lane<J>>), Memory>
        requires authorities { AreAuthorities boot.authorities }
        requires listener { target.key ≡ resource_key boot.authorities Listener target.key.name }
        requires callers { callers ≤ 16 }
        requires room { room ≤ most_entries }
        requires archive { archive ≡ J.archive }
        requires boot { boot ≡ J.boot }
        requires target { target ≡ J.target }
        requires actors { HasActors J.plan (callers + 1) }
        requires plan { HasChannelPlan J.plan (length J.boot.authorities) room }
        ensures lanes { IfOk result (λ begun. begun.1 ≡ map first_lane (range_with_len 0 (callers + 1))) }
    {
        let (book, lanes) = Book::begin(alloc, boot, target, callers, room, archive)?;
        let locked = Locked::new(alloc, book)?;
        let sleepers = Sleepers::new(alloc, callers)?;
        let channel = Channel {
            alloc,
            locked: Mutex::new(locked),
            sleepers,
        };
        Ok((channel, lanes))
    }

    /// Plays the next listed event of the driver, which this is. A response is read and checked, and its patterns are built,
    /// before the lock is taken.
    pub fn drive<R: Wait + Sync, P: Patterns, L: Ledger>(
        &self,
        rt: &R,
        lane: &mut Lane<J>,
        line: u32,
        after: Option<u32>,
        event: DriverEvent,
        patterns: &mut P,
        steps: &mut Steps<L>,
    ) -> Result<(), ChanFault>
        requires driver { lane.old.actor ≡ 0 }
        requires next { HasNext J.plan lane.old line after (ListedEvent.Driver event) }
        ensures lane { OnOk result (IsDriven lane.old lane.new (P.refused patterns.old) (P.refused patterns.new)) }
        ensures same { OnErr result (lane.new ≡ lane.old) }
        ensures cause { IfErr result (IsCauseAt lane.new.count) }
    {
        let Ok(prepared) = prepared_event(self.alloc, &event, patterns) else {
            return Err(self.run_out(rt));
        };
        let at = GatedLine { line, after };
        let mut locked = self.enter(rt, lane, after);
        let made = locked.drive(rt, lane, at, event, prepared, steps);
        self.leave(locked);
        made
    }

    /// Starts a call, as it is listed next for the lane of a caller: pins the latest snapshot, and where there is one finds the
    /// call's route in it and tells the gate, with no lock held, and then has the call hold its cluster. After a fault the pin
    /// may stay up.
    pub fn start<R: Wait + Sync, G: Gate, L: Ledger>(
        &self,
        rt: &R,
        lane: &mut Lane<J>,
        line: u32,
        after: Option<u32>,
        call: Shared<Call>,
        gate: &G,
        steps: &mut Steps<L>,
    ) -> Result<(), ChanFault>
        requires caller { 0 < lane.old.actor }
        requires next { HasNext J.plan lane.old line after (ListedEvent.Start call) }
        ensures lane { OnOk result (lane.new ≡ lane_ended lane.old) }
        ensures same { OnErr result ((lane.new ≡ lane.old) ⊎ (lane.new ≡ lane_pinned lane.old)) }
        ensures cause { IfErr result (IsCauseAt lane.new.count) }
    {
        let at = GatedLine { line, after };
        let Some(token) = self.pin(rt, lane, at, call)? else {
            return Ok(());
        };
        let answer = self.route(rt, &token, steps)?;
        gate.between(rt, token.call().id, &answer);
        self.hold(rt, lane, at, token, answer, steps)
    }

    /// Picks an endpoint for a call, as it is listed next for the lane of a caller.
    pub fn pick<R: Wait>(
        &self,
        rt: &R,
        lane: &mut Lane<J>,
        line: u32,
        after: Option<u32>,
        call: CallId,
        word: u64,
    ) -> Result<(), ChanFault>
        requires caller { 0 < lane.old.actor }
        requires next { HasNext J.plan lane.old line after (ListedEvent.Pick call word) }
        ensures lane { OnOk result (lane.new ≡ lane_ended lane.old) }
        ensures same { OnErr result (lane.new ≡ lane.old) }
        ensures cause { IfErr result (IsCauseAt lane.new.count) }
    {
        let at = GatedLine { line, after };
        let mut locked = self.enter(rt, lane, after);
        let made = locked.pick(lane, at, call, word);
        self.leave(locked);
        made
    }

    /// Has a call leave its cluster, as it is listed next for the lane of a caller.
    pub fn commit<R: Wait>(
        &self,
        rt: &R,
        lane: &mut Lane<J>,
        line: u32,
        after: Option<u32>,
        call: CallId,
    ) -> Result<(), ChanFault>
        requires caller { 0 < lane.old.actor }
        requires next { HasNext J.plan lane.old line after (ListedEvent.Commit call) }
        ensures lane { OnOk result (lane.new ≡ lane_ended lane.old) }
        ensures same { OnErr result (lane.new ≡ lane.old) }
        ensures cause { IfErr result (IsCauseAt lane.new.count) }
    {
        let at = GatedLine { line, after };
        let mut locked = self.enter(rt, lane, after);
        let made = locked.commit(lane, at, call);
        self.leave(locked);
        made
    }

    /// Takes the Book out of the lock. It takes no memory.
    pub fn close(self) -> Book<J> {
        let Channel {
            alloc: _,
            locked,
            sleepers,
        } = self;
        drop(sleepers);
        locked.into_inner().into_book()
    }

    /// Ends the channel for want of memory, if it hasn't ended. Who plays on it calls this where memory is wanted outside its
    /// calls, so that nobody waits any more for a line that isn't played. It takes no memory.
    pub fn run_out<R: Wait>(&self, rt: &R) -> ChanFault
        ensures { (count : CountValue) → IsCauseAt count result }
    {
        let mut locked = self.locked.lock(rt);
        let fault = locked.run_out();
        self.leave(locked);
        fault
    }

    /// Takes the lock, and waits in it until the line that has to end before a step of the lane has ended, or the step can't
    /// be made.
    fn enter<R: Wait>(
        &self,
        rt: &R,
        lane: &Lane<J>,
        after: Option<u32>,
    ) -> MutexGuard<'_, Locked<J>>
        ensures { IsFree lane.now after (mutex_guard_value result) }
    {
        let mut locked = self.locked.lock(rt);
        for _ in rt.forever() {
            if !locked.holds_back(lane, after) {
                locked.pass_on(lane, after);
                return locked;
            }
            locked.note(lane, after);
            let told = self.sleepers.told(lane.actor());
            let before = told.notifications();
            drop(locked);
            told.sleep(rt, before, Duration::from_secs(LONGEST_SLEEP));
            locked = self.locked.lock(rt);
        }
        locked
    }

    /// Lets the lock go, and wakes those who wait and have something to learn.
    fn leave(&self, locked: MutexGuard<'_, Locked<J>>) {
        let mut locked = locked;
        let news = locked.take_news();
        drop(locked);
        self.sleepers.wake(news);
    }

    /// Pins the latest snapshot for a call. The token is None where none was published.
    fn pin<R: Wait>(
        &self,
        rt: &R,
        lane: &mut Lane<J>,
        at: GatedLine,
        call: Shared<Call>,
    ) -> Result<Option<Pinned<J>>, ChanFault>
        requires caller { 0 < lane.old.actor }
        requires next { HasNext J.plan lane.old at.line at.after (ListedEvent.Start call) }
        ensures lane { IfOk result (IsAfterPin lane.old lane.new call) }
        ensures same { OnErr result (lane.new ≡ lane.old) }
        ensures cause { IfErr result (IsCauseAt lane.new.count) }
    {
        let mut locked = self.enter(rt, lane, at.after);
        let made = locked.pin(lane, at, call);
        self.leave(locked);
        made
    }

    /// The route of a call in the snapshot that it has pinned.
    fn route<R: Wait, L: Ledger>(
        &self,
        rt: &R,
        token: &Pinned<J>,
        steps: &mut Steps<L>,
    ) -> Result<RouteAnswer, ChanFault>
        ensures answer { IfOk result (λ answer. answer ≡ route (pinned_front token.now) token.now.call) }
        ensures cause { (count : CountValue) → IfErr result (IsCauseAt count) }
    {
        match token.route(steps) {
            Ok(answer) => Ok(answer),
            Err(_) => Err(self.run_out(rt)),
        }
    }

    /// Has a call whose pin is up hold the cluster of its route.
    fn hold<R: Wait, L: Ledger>(
        &self,
        rt: &R,
        lane: &mut Lane<J>,
        at: GatedLine,
        token: Pinned<J>,
        answer: RouteAnswer,
        steps: &mut Steps<L>,
    ) -> Result<(), ChanFault>
        requires caller { 0 < lane.old.actor }
        requires up { HasUp J.plan lane.old at.line at.after token.call }
        requires answer { answer ≡ route (pinned_front token) token.call }
        ensures lane { OnOk result (lane.new ≡ lane_held lane.old) }
        ensures same { OnErr result (lane.new ≡ lane.old) }
        ensures cause { IfErr result (IsCauseAt lane.new.count) }
    {
        let mut locked = self.enter(rt, lane, at.after);
        let made = locked.hold(lane, at, token, answer, steps);
        self.leave(locked);
        made
    }
}
