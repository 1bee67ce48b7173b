//! The part of the thread that drives: it plays for the driver, and for the callers that have no thread.
ghost use Rattle.std.specs.Prelude.{◌≡◌, ◌<◌, ℕ, List, [], IfOk, OnOk};
ghost use Rattle.call_journal.specs.declared.plan.ListedEvent.TheVariants as ListedValue;
ghost use Rattle.channel_crossing.specs.channel_calls.ChannelPlans.{HasNext};
ghost use Rattle.config_assembly.specs.Orders.{Name};
ghost use Rattle.closed_book.specs.xds_book.BookEntries.{first_lane};
ghost use Rattle.threaded_player.specs.ThreadedPlay.{HasGrown, IsDriverFrom};

use crate::fault_stops::stop_of;
use crate::growing_patterns::{Beginning, Growing};
use crate::players::Players;
use call_journal::{DriverEvent, Listed, ListedEvent};
use channel_crossing::Gate;
use closed_book::{Job, Lane, Stop, ends, shared_event};
use header_match::Patterns;
use std::marker::{Brand, PhantomData};
use std::sync::Wait;
use std::sync::ledger::{Blank, Ledger};
use xc_base::{Memory, Steps};

/// The lanes of callers that have no thread, and the counter of the steps that routes cost.
#[derive(Drop)]
struct Staying<J: Job, L: Ledger> {
    lanes: Vec<Lane<J>>,
    steps: Steps<L>,
}

impl<J: Job> Players<J> {
    /// The lanes of the callers that have no thread.
    fn staying_lanes<R: Wait>(&self, rt: &R) -> Result<Vec<Lane<J>>, Memory> {
        let mut lanes = Vec::new(self.alloc);
        for seat in self.seats.as_slice() {
            if let Some(lane) = seat.take_without_thread(rt) {
                lanes.push(lane)?;
            }
        }
        Ok(lanes)
    }

    /// The place of the lane whose next line is the first, where that line is before another.
    fn first_before(&self, lanes: &[Lane<J>], line: u32) -> Option<usize> {
        let mut first = line;
        let mut found = None;
        for place in 0..lanes.len() {
            if let Some(listed) = self.next(&lanes[place])
                && listed.line < first
            {
                first = listed.line;
                found = Some(place);
            }
        }
        found
    }

    /// Plays what is listed before a line for callers that have no thread, in the order of the file.
    fn play_before<R: Wait + Sync, G: Gate, L: Ledger>(
        &self,
        rt: &R,
        gate: &G,
        staying: &mut Staying<J, L>,
        line: u32,
    ) -> Result<(), Stop> {
        for _ in rt.forever() {
            let Some(place) = self.first_before(staying.lanes.as_slice(), line) else {
                break;
            };
            let Some(lane) = staying.lanes.get_mut(place) else {
                break;
            };
            if !self.step(rt, gate, lane, &mut staying.steps)? {
                break;
            }
        }
        Ok(())
    }

    /// The event once more. Where there is no memory, the channel ends.
    fn shared_event<R: Wait>(&self, rt: &R, event: &DriverEvent) -> Result<DriverEvent, Stop>
        ensures { IfOk result (λ copy. copy ≡ event.now) }
    {
        match shared_event(event) {
            Ok(copy) => Ok(copy),
            Err(_) => Err(self.run_out(rt)),
        }
    }

    /// Plays an event that is listed next for the driver.
    fn make_driven<R: Wait + Sync, P: Patterns, L: Ledger>(
        &self,
        rt: &R,
        lane: &mut Lane<J>,
        listed: &Listed,
        event: DriverEvent,
        patterns: &mut P,
        steps: &mut Steps<L>,
    ) -> Result<(), Stop>
        requires driver { lane.old.actor ≡ 0 }
        requires next { HasNext J.plan lane.old listed.now.line listed.now.after (ListedValue.Driver event) }
        ensures driven { OnOk result ((told : List Name) → IsDriverFrom told (P.refused patterns.old) lane.old → IsDriverFrom told (P.refused patterns.new) lane.new) }
        ensures actor { OnOk result (lane.new.actor ≡ 0) }
    {
        match self.channel.drive(rt, lane, listed.line, listed.after, event, patterns, steps) {
            Ok(()) => Ok(()),
            Err(fault) => Err(stop_of(fault)),
        }
    }

    /// Plays what is listed next for the driver, and before it what is listed in earlier lines for callers that have no
    /// thread. It tells whether there was something but the last sweep, which no line has.
    fn drive_next<R: Wait + Sync, G: Gate, P: Patterns, L: Ledger>(
        &self,
        rt: &R,
        gate: &G,
        lane: &mut Lane<J>,
        staying: &mut Staying<J, L>,
        patterns: &mut P,
    ) -> Result<bool, Stop>
        requires driver { lane.old.actor ≡ 0 }
        ensures driven { OnOk result ((told : List Name) → IsDriverFrom told (P.refused patterns.old) lane.old → IsDriverFrom told (P.refused patterns.new) lane.new) }
        ensures actor { OnOk result (lane.new.actor ≡ 0) }
    {
        let Some(listed) = self.next(lane) else {
            return Ok(false);
        };
        let ListedEvent::Driver(event) = &listed.event else {
            return Ok(false);
        };
        if listed.line == 0 {
            return Ok(false);
        }
        self.play_before(rt, gate, staying, listed.line)?;
        let is_end = ends(event);
        let event = self.shared_event(rt, event)?;
        self.make_driven(rt, lane, listed, event, patterns, &mut staying.steps)?;
        if is_end {
            gate.line_ended(rt, listed.line);
        }
        Ok(true)
    }

    /// Plays all that is listed for the driver but the last sweep, and all for the callers that have no thread.
    fn drive_all<R: Wait + Sync, G: Gate, P: Patterns, L: Ledger>(
        &self,
        rt: &R,
        gate: &G,
        lane: &mut Lane<J>,
        staying: &mut Staying<J, L>,
        patterns: &mut P,
    ) -> Result<(), Stop>
        requires driver { lane.old.actor ≡ 0 }
        ensures driven { OnOk result ((told : List Name) → IsDriverFrom told (P.refused patterns.old) lane.old → IsDriverFrom told (P.refused patterns.new) lane.new) }
    {
        for _ in rt.forever() {
            if !self.drive_next(rt, gate, lane, staying, patterns)? {
                break;
            }
        }
        self.play_before(rt, gate, staying, u32::MAX)
    }

    /// Brings the lanes of callers that have no thread back to their seats.
    fn bring_back<R: Wait>(&self, rt: &R, lanes: Vec<Lane<J>>) {
        for lane in lanes {
            let place = usize::from(lane.actor()).saturating_sub(1);
            if let Some(seat) = self.seats.as_slice().get(place) {
                seat.bring_back(rt, lane);
            }
        }
    }

    /// Plays the part of this thread, and hands the driver's lane back.
    fn drive<R: Wait + Sync, G: Gate, P: Patterns, L: Ledger>(
        &self,
        rt: &R,
        gate: &G,
        blank: Blank,
        lane: Lane<J>,
        patterns: &mut P,
    ) -> Result<Lane<J>, Stop>
        requires name { blank.name ≡ L.name }
        requires parts { blank.parts ≡ L.parts }
        requires some { 0 < blank.parts }
        requires first { lane ≡ first_lane 0 }
        ensures driven { IfOk result (IsDriverFrom (P.refused patterns.old) (P.refused patterns.new)) }
    {
        let Ok(lanes) = self.staying_lanes(rt) else {
            return Err(self.run_out(rt));
        };
        let mut lane = lane;
        let mut staying = Staying {
            lanes,
            steps: Steps::<L>::new(blank),
        };
        self.drive_all(rt, gate, &mut lane, &mut staying, patterns)?;
        self.bring_back(rt, staying.lanes);
        Ok(lane)
    }
}

/// Plays the part of this thread with the builder of patterns that B names.
fn drive_with<'p, J: Job, B: Beginning, R: Wait + Sync, G: Gate, P: Patterns>(
    players: &Players<J>,
    rt: &R,
    gate: &G,
    lane: Lane<J>,
    patterns: &'p mut P,
) -> (Result<Lane<J>, Stop>, &'p mut P)
    requires name { patterns.ghost_name ≡ B.name }
    requires told { P.refused patterns.old ≡ B.told }
    requires first { lane ≡ first_lane 0 }
    ensures name { result.1.ghost_name ≡ patterns.entry.ghost_name }
    ensures grown { HasGrown B.told (P.refused result.1.now) }
    ensures driven { IfOk result.0 (IsDriverFrom B.told (P.refused result.1.now)) }
{
    let mut growing = Growing::<'p, P, B> {
        patterns,
        of: PhantomData,
    };
    let driven = players.drive::<R, G, Growing<'p, P, B>, Brand>(
        rt,
        gate,
        Blank::new(1),
        lane,
        &mut growing,
    );
    let Growing { patterns, of: _ } = growing;
    (driven, patterns)
}

/// Plays the part of the thread that drives, and hands the driver's lane and the builder of patterns back.
pub(crate) fn drive_here<'p, J: Job, R: Wait + Sync, G: Gate, P: Patterns>(
    players: &Players<J>,
    rt: &R,
    gate: &G,
    lane: Lane<J>,
    patterns: &'p mut P,
) -> (Result<Lane<J>, Stop>, &'p mut P)
    requires first { lane ≡ first_lane 0 }
    ensures name { result.1.ghost_name ≡ patterns.entry.ghost_name }
    ensures grown { HasGrown (P.refused patterns.entry.now) (P.refused result.1.now) }
    ensures driven { IfOk result.0 (IsDriverFrom (P.refused patterns.entry.now) (P.refused result.1.now)) }
{
    drive_with::<J, Brand, R, G, P>(players, rt, gate, lane, patterns)
}
