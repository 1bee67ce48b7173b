//! Turns, played one after another.
ghost use Rattle.std.specs.Prelude.{◌≡◌, ◌≢◌, ◌↔◌, ◌⊎◌, ◌++◌, ◌∷◌, [], All, length, map, slice_get, Err, IfOk, IsErr, IsOk, None, Ok, OnErr, OnOk, Some};
ghost use Rattle.call_journal.specs.declared.plan.ListedEvent.TheVariants as ListedValue;
ghost use Rattle.book_progress.specs.ProgressKept.{most_entries};
ghost use Rattle.turn_steps.specs.channel_calls.ChannelPlans.{HasChannelPlan, HasNext};
ghost use Rattle.turn_steps.specs.listed_events.ListedEvents.{TellsOn};
ghost use Rattle.turn_steps.specs.MadeSteps.{CanStep};
ghost use Rattle.turn_steps.specs.declared.halts.Halt.TheVariants as Halted;
ghost use Rattle.turn_player.specs.TurnPlans.{IsTurnPlan, SeatView as SeatValue, UpView as UpValue};
ghost use Rattle.turn_player.specs.DueEvents.{IsOf, event_of, texts_in};
ghost use Rattle.turn_player.specs.TableSeats.{AreDone, AreLeft, AreSeated, HasMore, HasNoLineLeft, IsDone, IsDue, IsSweepNext, IsTurnPlayed, free_seat};
ghost use Rattle.turn_player.specs.TablePlaces.{IsNextOn, IsSweepPlace, IsTurnMade, IsTurnPlace, PlaysOnce};

use crate::due_events::{Due, due_of};
use crate::lane_seats::Seat;
use crate::seat_steps::{hold_at, make_at};
use crate::turn_places::{Place, left_at, place_at};
use call_journal::{Listed, Plan};
use header_match::Patterns;
use report_turns::{EntryTurn, Misplaced};
use session_player::{Book, Job, Lane};
use std::alloc::Global;
use std::marker::Model;
use std::sync::Wait;
use std::sync::ledger::Ledger;
use turn_steps::Halt;
use xc_base::{List, Memory, Steps};

/// A seat for each actor of a Book. Contracts see the seats.
#[derive(Drop)]
pub struct Table<J: Job, L: Ledger> {
    alloc: Global,
    seats: Vec<Seat<J>>,
    steps: Steps<L>,
}

impl<J: Job, L: Ledger> Model for Table<J, L> {
    ghost use Rattle.std.specs.Prelude.{List};
    ghost use Rattle.turn_player.specs.TurnPlans.{SeatView};

    ghost Value = { List SeatView };

    ghost view = { λ t. t.seats.items };
}

/// A seat for each of these lanes, in their order.
fn seats_for<J: Job>(alloc: Global, lanes: List<Lane<J>>) -> Result<Vec<Seat<J>>, Memory>
    ensures { IfOk result (λ seats. seats.items ≡ map free_seat lanes) }
{
    let mut seats = Vec::new(alloc);
    for lane in lanes.into_vec() {
        seats.push(Seat { lane, up: None })?;
    }
    Ok(seats)
}

/// Puts the lane of a seat into a list, where no pin is up.
#[tactic(auto, using(crate::proofs::PlaceLemmas::up_counts))]
fn put_lane<J: Job>(lanes: &mut Vec<Lane<J>>, seat: Seat<J>) -> Result<(), Memory>
    ensures { OnOk result (seat.lane.count.pins ≡ 0 → lanes.new.items ≡ lanes.old.items ++ seat.lane ∷ []) }
{
    let Seat { lane, up } = seat;
    if up.is_none() {
        lanes.push(lane)?;
    }
    Ok(())
}

/// The lesser of two lines, or the only one.
fn first_line(one: Option<u32>, other: Option<u32>) -> Option<u32>
    ensures { (result ≡ None) ↔ (one ≡ None) × (other ≡ None) }
{
    match (one, other) {
        (Some(one), Some(other)) => Some(one.min(other)),
        (Some(line), None) | (None, Some(line)) => Some(line),
        (None, None) => None,
    }
}

/// What is told of a step: nothing where it was made.
fn told(step: Result<(), Halt>) -> Result<Option<Misplaced>, Halt>
    ensures made { result ≡ Ok None → IsOk step }
    ensures memory { step ≡ Err Halted.Memory → result ≡ Err Halted.Memory }
    ensures halts { step ≢ Err Halted.Strange → (result ≡ Ok None) ⊎ (result ≡ Err Halted.Memory) }
    ensures none { result ≢ Ok None → IsErr step }
{
    match step {
        Ok(()) => Ok(None),
        Err(Halt::Memory) => Err(Halt::Memory),
        Err(Halt::Strange) => Err(Halt::Strange),
    }
}

impl<J: Job, L: Ledger> Table<J, L> {
    /// A table with the lanes of all actors of a Book, the driver's first.
    pub fn new(alloc: Global, lanes: List<Lane<J>>, steps: Steps<L>) -> Result<Table<J, L>, Memory>
        ensures { IfOk result (λ table. table ≡ map free_seat lanes) }
    {
        let seats = seats_for(alloc, lanes)?;
        Ok(Table {
            alloc,
            seats,
            steps,
        })
    }

    /// The lanes of actors that have no pin up, in the order of the actors.
    pub fn into_lanes(self) -> Result<Vec<Lane<J>>, Memory>
        ensures { IfOk result (λ lanes. All (λ seat. seat.lane.count.pins ≡ 0) self → lanes.items ≡ map (λ seat. seat.lane) self) }
    {
        let mut lanes = Vec::new(self.alloc);
        for seat in self.seats {
            put_lane(&mut lanes, seat)?;
        }
        Ok(lanes)
    }

    /// The first line that isn't played to its end, if there is one.
    pub fn left_line(&self, plan: &Plan) -> Option<u32>
        requires plan { IsTurnPlan J.plan (length J.boot.authorities) plan.now.actors }
        ensures done { AreDone plan.now.actors self.now → result ≡ None }
        ensures left { result ≡ None → All (HasNoLineLeft plan.now.actors) self.now }
    {
        let mut first = None;
        for seat in &self.seats {
            first = first_line(first, left_at(plan, seat));
        }
        first
    }

    /// Why the last sweep can't be made yet: a line isn't played to its end.
    fn early_sweep(&self, plan: &Plan) -> Option<Misplaced>
        requires plan { IsTurnPlan J.plan (length J.boot.authorities) plan.now.actors }
        ensures done { AreDone plan.now.actors self.now → result ≡ None }
        ensures left { result ≡ None → All (HasNoLineLeft plan.now.actors) self.now }
    {
        let line = self.left_line(plan)?;
        Some(Misplaced::Early(line))
    }

    /// Makes what an actor does next, where no pin of it is up.
    fn make<R: Wait + Sync>(
        &mut self,
        rt: &R,
        book: &mut Book<J>,
        actor: u16,
        due: Due,
    ) -> Result<(), Halt>
        requires fits { HasChannelPlan J.plan (length J.boot.authorities) most_entries }
        requires next { (seat : SeatValue) → slice_get self.old actor ≡ Some seat → HasNext J.plan seat.lane due.at.line due.at.after (event_of due.act) }
        requires free { (seat : SeatValue) → slice_get self.old actor ≡ Some seat → seat.up ≡ None }
        ensures made { OnOk result (PlaysOnce actor due.at.line (event_of due.act) (texts_in due.act) book.old book.new self.old self.new) }
        ensures halts { (seat : SeatValue) → slice_get self.old actor ≡ Some seat → CanStep seat.lane due.at.after book.old → IsOf seat.lane.actor (event_of due.act) → result ≢ Err Halted.Strange }
        ensures none { OnErr result (book.new.entries ≡ book.old.entries) }
    {
        match self.seats.get_mut(usize::from(actor)) {
            Some(seat) => make_at(rt, book, seat, due, &mut self.steps),
            None => Err(Halt::Strange),
        }
    }

    /// Has the call of an actor whose pin is up hold the cluster of its route.
    fn hold(&mut self, book: &mut Book<J>, actor: u16) -> Result<(), Halt>
        requires fits { HasChannelPlan J.plan (length J.boot.authorities) most_entries }
        ensures made { OnOk result ((seat : SeatValue) (up : UpValue) → slice_get self.old actor ≡ Some seat → seat.up ≡ Some up → PlaysOnce actor up.line (ListedValue.Start up.token.call) [] book.old book.new self.old self.new) }
        ensures halts { (seat : SeatValue) (up : UpValue) → slice_get self.old actor ≡ Some seat → seat.up ≡ Some up → CanStep seat.lane up.after book.old → result ≢ Err Halted.Strange }
        ensures none { OnErr result (book.new.entries ≡ book.old.entries) }
    {
        match self.seats.get_mut(usize::from(actor)) {
            Some(seat) => hold_at(book, seat, &mut self.steps),
            None => Err(Halt::Strange),
        }
    }

    fn alloc(&self) -> Global {
        self.alloc
    }

    /// Where the turn of an actor stands, by its seat.
    fn place_of<'a>(&self, book: &Book<J>, plan: &'a Plan, turn: EntryTurn<'_>) -> Place<'a>
        requires plan { IsTurnPlan J.plan (length J.boot.authorities) plan.now.actors }
        ensures place { IsTurnPlace J.plan plan.now.actors turn.entry.actor turn.entry.line book.now self.now result }
        ensures sweep { AreSeated book.now self.now → AreDone plan.now.actors self.now → IsSweepNext plan.now.actors turn.entry.actor turn.entry.line book.now → IsSweepPlace result }
    {
        let _actors = book.actors();
        match turn.find_in(self.seats.as_slice()) {
            Some(seat) => place_at(book, plan, seat, turn),
            None => Place::Misplaced(Misplaced::NoActor),
        }
    }

    /// Makes what is listed next for an actor of whom no pin is up. A response refuses the patterns that the report lists.
    fn make_next<R: Wait + Sync, P: Patterns>(
        &mut self,
        rt: &R,
        book: &mut Book<J>,
        listed: &Listed,
        turn: EntryTurn<'_>,
        patterns: &mut P,
    ) -> Result<(), Halt>
        requires fits { HasChannelPlan J.plan (length J.boot.authorities) most_entries }
        requires next { IsNextOn J.plan turn.actor turn.line book.old self.old listed.now }
        ensures made { OnOk result (IsTurnMade turn.entry.actor turn.entry.line turn.entry.more.now book.old book.new self.old self.new (P.refused patterns.old) (P.refused patterns.new)) }
        ensures halts { (seat : SeatValue) → slice_get self.old turn.entry.actor ≡ Some seat → CanStep seat.lane listed.now.after book.old → IsOf seat.lane.actor listed.now.event → result ≢ Err Halted.Strange }
        ensures none { OnErr result (book.new.entries ≡ book.old.entries) }
        ensures tells { result ≢ Err Halted.Memory → TellsOn (P.refused patterns.old) (P.refused patterns.new) }
    {
        let due = due_of(self.alloc(), listed, turn.more, patterns)?;
        self.make(rt, book, turn.actor, due)
    }

    /// Plays the turn of an actor, or says why it can't be played. A response refuses the patterns that the report lists
    /// behind it. The last sweep isn't made, but it is told whether it may be.
    pub fn play<R: Wait + Sync, P: Patterns>(
        &mut self,
        rt: &R,
        book: &mut Book<J>,
        plan: &Plan,
        turn: EntryTurn<'_>,
        patterns: &mut P,
    ) -> Result<Option<Misplaced>, Halt>
        requires plan { IsTurnPlan J.plan (length J.boot.authorities) plan.now.actors }
        ensures seated { result ≡ Ok None → AreSeated book.old self.old → AreSeated book.new self.new }
        ensures played { result ≡ Ok None → turn.entry.line ≢ 0 → AreSeated book.old self.old → IsTurnPlayed turn.entry.actor turn.entry.line turn.entry.more.now book.old book.new (P.refused patterns.old) (P.refused patterns.new) }
        ensures last { result ≡ Ok None → turn.entry.line ≡ 0 → AreLeft book.old book.new self.old self.new (P.refused patterns.old) (P.refused patterns.new) }
        ensures goes_on { AreSeated book.old self.old → IsDue plan.now.actors turn.entry.actor turn.entry.line book.old → turn.entry.line ≢ 0 → (result ≡ Ok None) ⊎ (result ≡ Err Halted.Memory) }
        ensures sweeps { AreSeated book.old self.old → AreDone plan.now.actors self.old → IsSweepNext plan.now.actors turn.entry.actor turn.entry.line book.old → result ≡ Ok None }
        ensures tells { result ≢ Err Halted.Memory → TellsOn (P.refused patterns.old) (P.refused patterns.new) }
        ensures none { result ≢ Ok None → book.new.entries ≡ book.old.entries }
        ensures more { HasMore book.old.entries book.new.entries }
        ensures left { result ≡ Ok None → turn.entry.line ≡ 0 → All (HasNoLineLeft plan.now.actors) self.old }
    {
        let _actors = book.actors();
        match self.place_of(book, plan, turn) {
            Place::Misplaced(why) => Ok(Some(why)),
            Place::Sweep => Ok(self.early_sweep(plan)),
            Place::Hold => told(self.hold(book, turn.actor)),
            Place::Next(listed) => told(self.make_next(rt, book, listed, turn, patterns)),
        }
    }
}
