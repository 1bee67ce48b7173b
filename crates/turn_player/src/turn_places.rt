//! Where turns stand in a plan.
ghost use Rattle.std.specs.Prelude.{◌≡◌, length, IfSome, None, Some, option_copied};
ghost use Rattle.call_journal.specs.declared.plan.Listed.{Listed as ListedOne};
ghost use Rattle.book_progress.specs.PlayedPlans.{IsListed};
ghost use Rattle.turn_steps.specs.channel_calls.ChannelPlans.{HasNext};
ghost use Rattle.turn_player.specs.TurnPlans.{IsTurnPlan};
ghost use Rattle.turn_player.specs.TableSeats.{HasNoLineLeft, IsDone};
ghost use Rattle.turn_player.specs.TablePlaces.{IsFreePlace, IsPlace, IsSweepListed, IsSweepPlace};

use crate::lane_seats::Seat;
use call_journal::{Listed, Plan};
use report_turns::{EntryTurn, Misplaced};
use session_player::{Book, Job, Lane};
use turn_steps::{has_to_wait, next_listed};

/// Where a turn stands.
pub(crate) enum Place<'a> {
    /// It can't be played.
    Misplaced(Misplaced),
    /// It is the last sweep.
    Sweep,
    /// It is the hold of the call whose pin is up.
    Hold,
    /// This is listed next, and its gate is open.
    Next(&'a Listed),
}

/// What is listed next for a lane, where no pin of it is up.
pub(crate) fn next_for<'a, J: Job>(plan: &'a Plan, lane: &Lane<J>) -> Option<&'a Listed>
    requires plan { IsTurnPlan J.plan (length J.boot.authorities) plan.now.actors }
    ensures next { IfSome result (λ listed. HasNext J.plan lane.now listed.now.line listed.now.after listed.now.event) }
    ensures listed { IfSome result (λ listed. IsListed plan.now.actors lane.now.actor lane.now.count listed.now) }
    ensures some { (listed : ListedOne) → lane.now.count.pins ≡ 0 → IsListed plan.now.actors lane.now.actor lane.now.count listed → option_copied result ≡ Some listed }
{
    next_listed(plan, lane)
}

/// Whether a line is one of these.
fn is_listed(list: &[Listed], line: u32) -> bool {
    for listed in list {
        if listed.line == line {
            return true;
        }
    }
    false
}

/// Where a line stands that isn't the next one of an actor with this list.
fn misplaced_in(list: &[Listed], line: u32, next: Option<u32>) -> Misplaced {
    if !is_listed(list, line) {
        return Misplaced::NotListed;
    }
    match next {
        Some(next) if next != 0 && (line == 0 || next < line) => Misplaced::Early(next),
        _ => Misplaced::Again,
    }
}

/// The line of an actor that comes next, if one is left; the last sweep is none.
#[tactic(auto, using(crate::proofs::PlaceLemmas::up_is_done))]
pub(crate) fn left_at<J: Job>(plan: &Plan, seat: &Seat<J>) -> Option<u32>
    requires plan { IsTurnPlan J.plan (length J.boot.authorities) plan.now.actors }
    ensures done { IsDone plan.now.actors seat.now → result ≡ None }
    ensures left { result ≡ None → HasNoLineLeft plan.now.actors seat.now }
{
    let line = match &seat.up {
        Some(up) => up.at.line,
        None => next_for(plan, &seat.lane)?.line,
    };
    if line == 0 { None } else { Some(line) }
}

/// Why a line can't be played by an actor whose next line is another one.
fn misplaced(plan: &Plan, turn: EntryTurn<'_>, next: Option<u32>) -> Misplaced {
    let actor = usize::from(turn.actor);
    match plan.actors.as_slice().get(actor) {
        Some(list) => misplaced_in(list.as_slice(), turn.line, next),
        None => Misplaced::NoActor,
    }
}

/// Where a turn stands whose actor has this seat.
#[tactic(auto, using(crate::proofs::PlaceLemmas::up_misplaced, crate::proofs::PlaceLemmas::up_here, crate::proofs::PlaceLemmas::up_is_no_sweep))]
pub(crate) fn place_at<'a, J: Job>(
    book: &Book<J>,
    plan: &'a Plan,
    seat: &Seat<J>,
    turn: EntryTurn<'_>,
) -> Place<'a>
    requires plan { IsTurnPlan J.plan (length J.boot.authorities) plan.now.actors }
    ensures place { IsPlace J.plan plan.now.actors turn.entry.line book.now seat.now result }
    ensures sweep { turn.entry.line ≡ 0 → IsSweepListed plan.now.actors seat.now.lane → IsSweepPlace result }
{
    if let Some(up) = &seat.up {
        let line = up.at.line;
        if line != turn.line || line == 0 {
            return Place::Misplaced(misplaced(plan, turn, Some(line)));
        }
        return Place::Hold;
    }
    place_free(book, plan, &seat.lane, turn)
}

/// Where a turn stands, of whose actor no pin is up.
fn place_free<'a, J: Job>(
    book: &Book<J>,
    plan: &'a Plan,
    lane: &Lane<J>,
    turn: EntryTurn<'_>,
) -> Place<'a>
    requires plan { IsTurnPlan J.plan (length J.boot.authorities) plan.now.actors }
    ensures place { IsFreePlace plan.now.actors turn.entry.line book.now lane.now result }
    ensures sweep { turn.entry.line ≡ 0 → IsSweepListed plan.now.actors lane.now → IsSweepPlace result }
{
    let Some(listed) = next_for(plan, lane) else {
        return Place::Misplaced(misplaced(plan, turn, None));
    };
    if listed.line != turn.line {
        return Place::Misplaced(misplaced(plan, turn, Some(listed.line)));
    }
    if listed.line == 0 {
        return Place::Sweep;
    }
    if let Some(after) = listed.after
        && has_to_wait(book, lane, listed.after)
    {
        return Place::Misplaced(Misplaced::Early(after));
    }
    Place::Next(listed)
}
