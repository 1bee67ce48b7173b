//! The Book under the lock of a channel.
ghost use Rattle.std.specs.Prelude.{◌≡◌, ◌<◌, length, IfErr, IfOk, None, OnErr, OnOk, false};
ghost use Rattle.call_journal.specs.declared.plan.Count.{Count as CountValue};
ghost use Rattle.call_journal.specs.declared.plan.ListedEvent.{ListedEvent};
ghost use Rattle.route_match.specs.Routes.{route};
ghost use Rattle.book_progress.specs.ProgressKept.{most_entries};
ghost use Rattle.lane_checks.specs.book_hearing.HeardEvents.{IsPreparedFor, texts_of};
ghost use Rattle.lane_checks.specs.xds_book.BookViews.{pinned_front};
ghost use Rattle.lane_checks.specs.xds_book.declared.book_faults.BookFault.TheVariants as Fault;
ghost use Rattle.channel_calls.specs.ChannelFaults.{IsCauseAt};
ghost use Rattle.channel_calls.specs.ChannelPlans.{HasActor, HasChannelPlan, HasNext, HasUp};
ghost use Rattle.channel_calls.specs.LockedBooks.{IsAfterEvent, IsAfterPin, IsFree, IsOpenTo, lane_ended, lane_held};

use crate::channel_faults::{ChanFault, First};
use crate::line_waits::{News, Waits};
use call_journal::DriverEvent;
use lane_checks::{
    Book, BookFault, Difference, GatedLine, Job, Lane, Pinned, find_difference, has_to_wait,
};
use resource_check::Prepared;
use route_match::RouteAnswer;
use std::alloc::Global;
use std::marker::Model;
use std::sync::Wait;
use std::sync::ledger::Ledger;
use xc_base::{Call, CallId, Memory, Shared, Steps};

/// The Book of a channel, and those who wait for its lines. Contracts see the Book, and the fault by which the channel has
/// ended.
#[derive(Drop)]
pub(crate) struct Locked<J: Job> {
    book: Book<J>,
    waits: Waits,
}

impl<J: Job> Model for Locked<J> {
    ghost use Rattle.std.specs.Prelude.{length};
    ghost use Rattle.channel_calls.specs.LockedBooks.{IsLockable, LockedView};

    ghost Value = { LockedView };

    ghost view = { λ l. record { book = l.book; first = l.waits } };

    ghost invariant = { λ l. IsLockable J.plan (length J.boot.authorities) (record { book = l.book; first = l.waits }) };
}

/// Want of memory, which is the only fault of a Book that goes on and isn't full.
fn memory_of(fault: BookFault) -> ChanFault
    requires { fault ≡ Fault.Memory }
    ensures { result ≡ ChanFault.Memory }
{
    let _fault = fault;
    ChanFault::Memory
}

impl<J: Job> Locked<J> {
    /// A Book that goes on, for which nobody waits.
    pub(crate) fn new(alloc: Global, book: Book<J>) -> Result<Locked<J>, Memory>
        requires plan { HasChannelPlan J.plan (length J.boot.authorities) most_entries }
        requires goes_on { book.is_spent ≡ false }
    {
        let waits = Waits::new(alloc, book.actors())?;
        Ok(Locked { book, waits })
    }

    /// The Book.
    pub(crate) fn into_book(self) -> Book<J>
        ensures { result ≡ self.book }
    {
        self.book
    }

    /// Whether a step of the lane has to wait: the channel goes on, the lane is of the Book, and the line that has to end
    /// before the step hasn't ended.
    pub(crate) fn holds_back(&self, lane: &Lane<J>, after: Option<u32>) -> bool
        ensures { result ≡ false → IsFree lane.now after self.now }
    {
        self.waits.first().is_none() && has_to_wait(&self.book, lane, after)
    }

    /// Notes for which line a step of the lane waits.
    pub(crate) fn note(&mut self, lane: &Lane<J>, after: Option<u32>) {
        self.waits.note(lane.actor(), after);
    }

    /// Who of those who wait has something to learn, and is told now.
    pub(crate) fn take_news(&mut self) -> News {
        self.waits.take_news()
    }

    /// Has the lane's actor wait no more, and tell the next that waits for the same line.
    pub(crate) fn pass_on(&mut self, lane: &Lane<J>, after: Option<u32>)
        ensures { self.new ≡ self.old }
    {
        self.waits.pass_on(lane.actor(), after);
    }

    /// Tells those who wait for the line, where it has ended.
    fn tell(&mut self, line: u32) {
        if self.waits.is_awaited(line) && self.book.line_done(line) {
            self.waits.end_line(line);
        }
    }

    /// Ends the channel for want of memory, if it hasn't ended.
    pub(crate) fn run_out(&mut self) -> ChanFault
        ensures { (count : CountValue) → IsCauseAt count result }
    {
        if let Some(first) = self.waits.first() {
            return ChanFault::Ended(first);
        }
        self.waits.end(First::Memory);
        ChanFault::Memory
    }

    /// Lets a lane make its next step, if the channel goes on and the lane is of the Book. A lane that isn't ends the channel.
    fn admit(&mut self, lane: &Lane<J>) -> Result<(), ChanFault>
        requires { HasActor J.plan lane.now.actor }
        ensures same { OnOk result (self.new ≡ self.old) }
        ensures goes_on { OnOk result (self.old.first ≡ None) }
        ensures opens { OnOk result (IsOpenTo J.plan lane.now self.old.book) }
        ensures cause { IfErr result (IsCauseAt lane.now.count) }
    {
        if let Some(first) = self.waits.first() {
            return Err(ChanFault::Ended(first));
        }
        let _actors = self.book.actors();
        let Some(Difference { book, lane }) = find_difference(&self.book, lane) else {
            return Ok(());
        };
        self.waits.end(First::Stranger { book, lane });
        Err(ChanFault::Stranger { book, lane })
    }

    /// Makes the next event of the driver.
    pub(crate) fn drive<R: Wait + Sync, L: Ledger>(
        &mut self,
        rt: &R,
        lane: &mut Lane<J>,
        at: GatedLine,
        event: DriverEvent,
        prepared: Option<Prepared>,
        steps: &mut Steps<L>,
    ) -> Result<(), ChanFault>
        requires driver { lane.old.actor ≡ 0 }
        requires next { HasNext J.plan lane.old at.line at.after (ListedEvent.Driver event) }
        requires free { IsFree lane.old at.after self.old }
        requires prepared { IsPreparedFor event prepared }
        ensures lane { OnOk result (IsAfterEvent lane.old lane.new (texts_of prepared)) }
        ensures same { OnErr result (lane.new ≡ lane.old) }
        ensures cause { IfErr result (IsCauseAt lane.new.count) }
    {
        self.admit(lane)?;
        match self.book.apply(rt, lane, at.line, event, prepared, steps) {
            Ok(_) => {
                self.tell(at.line);
                Ok(())
            }
            Err(fault) => {
                self.waits.end(First::Memory);
                Err(memory_of(fault))
            }
        }
    }

    /// Pins the latest snapshot for the call that is started next. The token is None where none was published.
    pub(crate) fn pin(
        &mut self,
        lane: &mut Lane<J>,
        at: GatedLine,
        call: Shared<Call>,
    ) -> Result<Option<Pinned<J>>, ChanFault>
        requires caller { 0 < lane.old.actor }
        requires next { HasNext J.plan lane.old at.line at.after (ListedEvent.Start call) }
        requires free { IsFree lane.old at.after self.old }
        ensures lane { IfOk result (IsAfterPin lane.old lane.new call) }
        ensures same { OnErr result (lane.new ≡ lane.old) }
        ensures cause { IfErr result (IsCauseAt lane.new.count) }
    {
        self.admit(lane)?;
        match self.book.pin(lane, at.line, call) {
            Ok(token) => {
                self.tell(at.line);
                Ok(token)
            }
            Err(fault) => {
                self.waits.end(First::Memory);
                Err(memory_of(fault))
            }
        }
    }

    /// Has the call whose pin is up hold the cluster of its route, which takes the pin down.
    pub(crate) fn hold<L: Ledger>(
        &mut self,
        lane: &mut Lane<J>,
        at: GatedLine,
        token: Pinned<J>,
        answer: RouteAnswer,
        steps: &mut Steps<L>,
    ) -> Result<(), ChanFault>
        requires caller { 0 < lane.old.actor }
        requires up { HasUp J.plan lane.old at.line at.after token.call }
        requires free { IsFree lane.old at.after self.old }
        requires answer { answer ≡ route (pinned_front token) token.call }
        ensures lane { OnOk result (lane.new ≡ lane_held lane.old) }
        ensures same { OnErr result (lane.new ≡ lane.old) }
        ensures cause { IfErr result (IsCauseAt lane.new.count) }
    {
        self.admit(lane)?;
        match self.book.hold(lane, at.line, token, answer, steps) {
            Ok(_) => {
                self.tell(at.line);
                Ok(())
            }
            Err((fault, _)) => {
                self.waits.end(First::Memory);
                Err(memory_of(fault))
            }
        }
    }

    /// Picks an endpoint for a call, which comes next.
    pub(crate) fn pick(
        &mut self,
        lane: &mut Lane<J>,
        at: GatedLine,
        call: CallId,
        word: u64,
    ) -> Result<(), ChanFault>
        requires caller { 0 < lane.old.actor }
        requires next { HasNext J.plan lane.old at.line at.after (ListedEvent.Pick call word) }
        requires free { IsFree lane.old at.after self.old }
        ensures lane { OnOk result (lane.new ≡ lane_ended lane.old) }
        ensures same { OnErr result (lane.new ≡ lane.old) }
        ensures cause { IfErr result (IsCauseAt lane.new.count) }
    {
        self.admit(lane)?;
        match self.book.pick(lane, at.line, call, word) {
            Ok(_) => {
                self.tell(at.line);
                Ok(())
            }
            Err(fault) => {
                self.waits.end(First::Memory);
                Err(memory_of(fault))
            }
        }
    }

    /// Has a call leave its cluster, which comes next.
    pub(crate) fn commit(
        &mut self,
        lane: &mut Lane<J>,
        at: GatedLine,
        call: CallId,
    ) -> Result<(), ChanFault>
        requires caller { 0 < lane.old.actor }
        requires next { HasNext J.plan lane.old at.line at.after (ListedEvent.Commit call) }
        requires free { IsFree lane.old at.after self.old }
        ensures lane { OnOk result (lane.new ≡ lane_ended lane.old) }
        ensures same { OnErr result (lane.new ≡ lane.old) }
        ensures cause { IfErr result (IsCauseAt lane.new.count) }
    {
        self.admit(lane)?;
        match self.book.commit(lane, at.line, call) {
            Ok(_) => {
                self.tell(at.line);
                Ok(())
            }
            Err(fault) => {
                self.waits.end(First::Memory);
                Err(memory_of(fault))
            }
        }
    }
}
