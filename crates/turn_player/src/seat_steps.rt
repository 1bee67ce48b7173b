//! Acts of actors, made at their seats.
ghost use Rattle.std.specs.Prelude.{◌≡◌, ◌≢◌, ◌<◌, [], length, Err, IfSome, None, OnErr, OnOk};
ghost use Rattle.call_journal.specs.declared.plan.ListedEvent.TheVariants as ListedValue;
ghost use Rattle.book_progress.specs.ProgressKept.{most_entries};
ghost use Rattle.turn_steps.specs.channel_calls.ChannelPlans.{HasChannelPlan, HasNext};
ghost use Rattle.turn_steps.specs.MadeSteps.{CanStep};
ghost use Rattle.turn_steps.specs.declared.halts.Halt.TheVariants.{Strange};
ghost use Rattle.turn_player.specs.DueEvents.{IsOf, MakesTurn, event_of, texts_in};

use crate::due_events::{Act, Due};
use crate::lane_seats::{Seat, UpCall};
use session_player::{Book, Job};
use std::sync::Wait;
use std::sync::ledger::Ledger;
use turn_steps::{GatedLine, Halt, commit, drive, hold, pick, pin};
use xc_base::{Call, Shared, Steps};

/// Pins the latest snapshot for a call, whose start is listed next.
fn start_at<J: Job>(
    book: &mut Book<J>,
    seat: &mut Seat<J>,
    at: GatedLine,
    call: Shared<Call>,
) -> Result<(), Halt>
    requires fits { HasChannelPlan J.plan (length J.boot.authorities) most_entries }
    requires caller { 0 < seat.old.lane.actor }
    requires next { HasNext J.plan seat.old.lane at.line at.after (ListedValue.Start call) }
    requires free { seat.old.up ≡ None }
    ensures made { OnOk result (MakesTurn at.line (ListedValue.Start call) [] book.old book.new seat.old seat.new) }
    ensures halts { CanStep seat.old.lane at.after book.old → result ≢ Err Strange }
    ensures none { OnErr result (book.new.entries ≡ book.old.entries) }
{
    if let Some(token) = pin(book, &mut seat.lane, at, call)? {
        seat.up = Some(UpCall { token, at });
    }
    Ok(())
}

/// Makes what an actor does next, where no pin of it is up.
pub(crate) fn make_at<J: Job, R: Wait + Sync, L: Ledger>(
    rt: &R,
    book: &mut Book<J>,
    seat: &mut Seat<J>,
    due: Due,
    steps: &mut Steps<L>,
) -> Result<(), Halt>
    requires fits { HasChannelPlan J.plan (length J.boot.authorities) most_entries }
    requires next { HasNext J.plan seat.old.lane due.at.line due.at.after (event_of due.act) }
    requires free { seat.old.up ≡ None }
    ensures made { OnOk result (MakesTurn due.at.line (event_of due.act) (texts_in due.act) book.old book.new seat.old seat.new) }
    ensures halts { CanStep seat.old.lane due.at.after book.old → IsOf seat.old.lane.actor (event_of due.act) → result ≢ Err Strange }
    ensures none { OnErr result (book.new.entries ≡ book.old.entries) }
{
    let is_driver = seat.lane.actor() == 0;
    let Due { at, act } = due;
    match act {
        Act::Drive(coming) if is_driver => drive(rt, book, &mut seat.lane, at, coming, steps),
        Act::Start(call) if !is_driver => start_at(book, seat, at, call),
        Act::Pick { call, word } if !is_driver => pick(book, &mut seat.lane, at, call, word),
        Act::Commit(call) if !is_driver => commit(book, &mut seat.lane, at, call),
        _ => Err(Halt::Strange),
    }
}

/// Has the call whose pin is up hold the cluster of its route.
pub(crate) fn hold_at<J: Job, L: Ledger>(
    book: &mut Book<J>,
    seat: &mut Seat<J>,
    steps: &mut Steps<L>,
) -> Result<(), Halt>
    requires fits { HasChannelPlan J.plan (length J.boot.authorities) most_entries }
    ensures made { OnOk result (IfSome seat.old.up (λ up. MakesTurn up.line (ListedValue.Start up.token.call) [] book.old book.new seat.old seat.new)) }
    ensures halts { IfSome seat.old.up (λ up. CanStep seat.old.lane up.after book.old → result ≢ Err Strange) }
    ensures none { OnErr result (book.new.entries ≡ book.old.entries) }
{
    let Some(UpCall { token, at }) = seat.up.take() else {
        return Err(Halt::Strange);
    };
    hold(book, &mut seat.lane, at, token, steps)
}
