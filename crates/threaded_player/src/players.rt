//! What the threads of a session share, and how a thread plays for its actors.
ghost use Rattle.std.specs.Prelude.{◌≡◌, ◌<◌, ◌+◌, length, IfOk, IfSome, OnOk, Some};
ghost use Rattle.channel_crossing.specs.channel_calls.ChannelPlans.{HasNext};
ghost use Rattle.closed_book.specs.xds_book.BookEntries.{first_lane};
ghost use Rattle.closed_book.specs.session_player.Stages.{IsOfSession};

use crate::fault_stops::stop_of;
use crate::seats::Seat;
use crate::session_channel::begin_channel;
use call_journal::{Listed, ListedEvent, Plan};
use caller_threads::Crew;
use channel_crossing::{Channel, Gate, next_listed};
use closed_book::{ClosedBook, Job, Lane, Stop};
use cluster_tree::Snapshot;
use session_lines::Session;
use snapshot_store::Archive;
use std::alloc::Global;
use std::marker::Brand;
use std::sync::Wait;
use std::sync::ledger::{Blank, Ledger};
use xc_base::{Call, List, Memory, Shared, Steps};

/// What the threads of a session share: the channel, the plan that they play, and a seat for each caller, in their order.
#[derive(Drop)]
pub(crate) struct Players<J: Job> {
    pub(crate) alloc: Global,
    pub(crate) channel: Channel<J>,
    pub(crate) plan: Plan,
    pub(crate) seats: Vec<Seat<J>>,
    ghost planned: { J.plan ≡ Some plan.actors },
}

impl<J: Job> Players<J> {
    /// The players of a session by its plan, before anything is played, and the driver's lane. It fails for want of memory
    /// alone.
    pub(crate) fn begin(
        alloc: Global,
        session: &Session,
        plan: Plan,
        archive: Shared<Archive<Snapshot>>,
    ) -> Result<(Players<J>, Lane<J>), Memory>
        requires of { IsOfSession J.plan J.boot J.target session.now plan.actors }
        requires archive { archive ≡ J.archive }
        ensures plan { IfOk result (λ begun. begun.0.plan ≡ plan) }
        ensures driver { IfOk result (λ begun. begun.1 ≡ first_lane 0) }
    {
        let (channel, lanes) = begin_channel(alloc, session, &plan, archive)?;
        let mut lanes = lanes.into_vec();
        let driver = lanes.remove(0);
        let players = Players {
            alloc,
            channel,
            plan,
            seats: seats_for(alloc, lanes)?,
        };
        Ok((players, driver))
    }

    /// What is listed next for a lane, where no pin of it is up.
    pub(crate) fn next(&self, lane: &Lane<J>) -> Option<&Listed>
        ensures { IfSome result (λ listed. HasNext J.plan lane.now listed.now.line listed.now.after listed.now.event) }
    {
        next_listed(&self.plan, lane)
    }

    /// The call once more. Where there is no memory, the channel ends.
    fn shared_call<R: Wait>(&self, rt: &R, call: &Shared<Call>) -> Result<Shared<Call>, Stop>
        ensures { IfOk result (λ copy. copy ≡ call.now) }
    {
        match call.share() {
            Ok(copy) => Ok(copy),
            Err(_) => Err(self.run_out(rt)),
        }
    }

    /// Ends the channel for want of memory, so that nobody waits any more.
    pub(crate) fn run_out<R: Wait>(&self, rt: &R) -> Stop {
        stop_of(self.channel.run_out(rt))
    }

    /// Plays an event that is listed next for a caller's lane, and tells whether it is one of a caller.
    fn make<R: Wait + Sync, G: Gate, L: Ledger>(
        &self,
        rt: &R,
        gate: &G,
        lane: &mut Lane<J>,
        listed: &Listed,
        steps: &mut Steps<L>,
    ) -> Result<bool, Stop>
        requires caller { 0 < lane.old.actor }
        requires next { HasNext J.plan lane.old listed.now.line listed.now.after listed.now.event }
    {
        let line = listed.line;
        let after = listed.after;
        let made = match &listed.event {
            ListedEvent::Start(call) => {
                let call = self.shared_call(rt, call)?;
                self.channel.start(rt, lane, line, after, call, gate, steps)
            }
            ListedEvent::Pick { call, word } => {
                self.channel.pick(rt, lane, line, after, *call, *word)
            }
            ListedEvent::Commit(call) => self.channel.commit(rt, lane, line, after, *call),
            ListedEvent::Driver(_) => return Ok(false),
        };
        match made {
            Ok(()) => Ok(true),
            Err(fault) => Err(stop_of(fault)),
        }
    }

    /// Plays what is listed next for a caller's lane, and tells whether there was something.
    pub(crate) fn step<R: Wait + Sync, G: Gate, L: Ledger>(
        &self,
        rt: &R,
        gate: &G,
        lane: &mut Lane<J>,
        steps: &mut Steps<L>,
    ) -> Result<bool, Stop> {
        if lane.actor() == 0 {
            return Ok(false);
        }
        let Some(listed) = self.next(lane) else {
            return Ok(false);
        };
        let is_made = self.make(rt, gate, lane, listed, steps)?;
        if is_made {
            gate.line_ended(rt, listed.line);
        }
        Ok(is_made)
    }

    /// Plays all that is listed for a caller's lane.
    fn play_all<R: Wait + Sync, G: Gate, L: Ledger>(
        &self,
        rt: &R,
        gate: &G,
        blank: Blank,
        lane: &mut Lane<J>,
    ) -> Result<(), Stop>
        requires name { blank.name ≡ L.name }
        requires parts { blank.parts ≡ L.parts }
        requires some { 0 < blank.parts }
    {
        let mut steps = Steps::<L>::new(blank);
        for _ in rt.forever() {
            if !self.step(rt, gate, lane, &mut steps)? {
                break;
            }
        }
        Ok(())
    }

    /// Takes the Book out of the channel, and the callers' lanes out of their seats, once the threads have ended.
    pub(crate) fn close(self) -> Result<ClosedBook<J>, Stop>
        ensures { IfOk result (λ closed. closed.plan ≡ self.plan) }
    {
        let Players {
            alloc,
            channel,
            plan,
            seats,
        } = self;
        let lanes = lanes_in(alloc, seats)?;
        Ok(ClosedBook {
            book: channel.close(),
            lanes,
            plan,
        })
    }

    /// Plays all that is listed for the caller of a seat, on this thread.
    fn play_seat<R: Wait + Sync, G: Gate>(&self, rt: &R, gate: &G, seat: &Seat<J>) {
        let Some(mut lane) = seat.take_for_thread(rt) else {
            return;
        };
        match self.play_all::<R, G, Brand>(rt, gate, Blank::new(1), &mut lane) {
            Ok(()) => seat.bring_back(rt, lane),
            Err(stop) => seat.stop(rt, stop),
        }
    }
}

impl<J: Job, G: Gate> Crew<G> for Players<J> {
    fn work<R: Wait + Sync>(&self, rt: &R, gate: &G, place: usize) {
        if let Some(seat) = self.seats.as_slice().get(place) {
            self.play_seat(rt, gate, seat);
        }
    }

    fn stay<R: Wait>(&self, rt: &R, place: usize) {
        if let Some(seat) = self.seats.as_slice().get(place) {
            seat.stay(rt);
        }
    }
}

/// The lanes that were brought back to these seats.
fn lanes_in<J: Job>(alloc: Global, seats: Vec<Seat<J>>) -> Result<List<Lane<J>>, Stop> {
    let mut lanes = List::new(alloc);
    for seat in seats {
        if let Some(lane) = seat.into_lane()? {
            if lanes.push(lane).is_err() {
                return Err(Stop::Memory);
            }
        }
    }
    Ok(lanes)
}

/// A seat for each of these lanes, in their order.
fn seats_for<J: Job>(alloc: Global, lanes: Vec<Lane<J>>) -> Result<Vec<Seat<J>>, Memory> {
    let mut seats = Vec::new(alloc);
    for lane in lanes {
        seats.push(Seat::new(lane))?;
    }
    Ok(seats)
}
