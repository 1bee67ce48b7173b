//! The next step of an actor, where the line that gates it has ended.
ghost use Rattle.std.specs.Prelude.{◌≡◌, ◌≢◌, ◌<◌, length, Err, IfOk, IsTrue, OnErr, OnOk};
ghost use Rattle.call_journal.specs.declared.event.CallerEvent.TheVariants as Asking;
ghost use Rattle.call_journal.specs.declared.plan.ListedEvent.TheVariants as ListedValue;
ghost use Rattle.channel_calls.specs.xds_history.Setting.{setting_of};
ghost use Rattle.book_progress.specs.EndedLines.{IsOpen};
ghost use Rattle.book_progress.specs.ProgressKept.{most_entries};
ghost use Rattle.channel_calls.specs.xds_book.BookEntries.{Drives, IsLaneOf, Makes, answered_call};
ghost use Rattle.channel_calls.specs.ChannelPlans.{HasChannelPlan, HasNext, HasUp};
ghost use Rattle.channel_calls.specs.LockedBooks.{IsAfterPin};
ghost use Rattle.turn_steps.specs.MadeSteps.{CanStep};
ghost use Rattle.turn_steps.specs.declared.halts.Halt.TheVariants.{Strange};

use crate::halts::Halt;
use channel_calls::{Book, GatedLine, Job, Lane, Pinned, has_to_wait};
use listed_events::Coming;
use std::sync::Wait;
use std::sync::ledger::Ledger;
use xc_base::{Call, CallId, Shared, Steps};

/// Whether a lane is of the Book, and the line that gates its step has ended.
fn may_go<J: Job>(book: &Book<J>, lane: &Lane<J>, after: Option<u32>) -> bool
    ensures own { IsTrue result → IsLaneOf lane.now book.now }
    ensures open { IsTrue result → IsOpen after book.now.entries }
    ensures may { IsLaneOf lane.now book.now → IsOpen after book.now.entries → IsTrue result }
{
    book.is_of(lane) && !has_to_wait(book, lane, after)
}

/// Makes an event of the driver, which is listed next.
pub fn drive<J: Job, R: Wait + Sync, L: Ledger>(
    rt: &R,
    book: &mut Book<J>,
    lane: &mut Lane<J>,
    at: GatedLine,
    coming: Coming,
    steps: &mut Steps<L>,
) -> Result<(), Halt>
    requires fits { HasChannelPlan J.plan (length J.boot.authorities) most_entries }
    requires driver { lane.old.actor ≡ 0 }
    requires next { HasNext J.plan lane.old at.line at.after (ListedValue.Driver coming.event) }
    ensures makes { OnOk result (Drives at.line coming.event coming.prepared book.old book.new lane.old lane.new) }
    ensures halts { CanStep lane.old at.after book.old → result ≢ Err Strange }
    ensures none { OnErr result (book.new.entries ≡ book.old.entries) }
{
    if !may_go(book, lane, at.after) {
        return Err(Halt::Strange);
    }
    let (event, prepared) = coming.into_parts();
    match book.apply(rt, lane, at.line, event, prepared, steps) {
        Ok(_) => Ok(()),
        Err(fault) => Err(Halt::from(fault)),
    }
}

/// Pins the latest snapshot for a call, whose start is listed next. There is no token where no snapshot was published.
pub fn pin<J: Job>(
    book: &mut Book<J>,
    lane: &mut Lane<J>,
    at: GatedLine,
    call: Shared<Call>,
) -> Result<Option<Pinned<J>>, Halt>
    requires fits { HasChannelPlan J.plan (length J.boot.authorities) most_entries }
    requires caller { 0 < lane.old.actor }
    requires next { HasNext J.plan lane.old at.line at.after (ListedValue.Start call) }
    ensures makes { OnOk result (Makes at.line (answered_call (setting_of J.boot J.target) book.old.entries (Asking.Pin call)) book.old book.new lane.old lane.new) }
    ensures token { IfOk result (IsAfterPin lane.old lane.new call) }
    ensures halts { CanStep lane.old at.after book.old → result ≢ Err Strange }
    ensures none { OnErr result (book.new.entries ≡ book.old.entries) }
{
    let _actors = book.actors();
    if !may_go(book, lane, at.after) {
        return Err(Halt::Strange);
    }
    match book.pin(lane, at.line, call) {
        Ok(token) => Ok(token),
        Err(fault) => Err(Halt::from(fault)),
    }
}

/// Has a call whose pin is up hold the cluster of its route.
pub fn hold<J: Job, L: Ledger>(
    book: &mut Book<J>,
    lane: &mut Lane<J>,
    at: GatedLine,
    token: Pinned<J>,
    steps: &mut Steps<L>,
) -> Result<(), Halt>
    requires fits { HasChannelPlan J.plan (length J.boot.authorities) most_entries }
    requires caller { 0 < lane.old.actor }
    requires up { HasUp J.plan lane.old at.line at.after token.call }
    ensures makes { OnOk result (Makes at.line (answered_call (setting_of J.boot J.target) book.old.entries (Asking.Hold token.call)) book.old book.new lane.old lane.new) }
    ensures halts { CanStep lane.old at.after book.old → result ≢ Err Strange }
    ensures none { OnErr result (book.new.entries ≡ book.old.entries) }
{
    let _actors = book.actors();
    if !may_go(book, lane, at.after) {
        return Err(Halt::Strange);
    }
    let answer = token.route(steps)?;
    match book.hold(lane, at.line, token, answer, steps) {
        Ok(_) => Ok(()),
        Err((fault, _)) => Err(Halt::from(fault)),
    }
}

/// Picks an endpoint for a call, which is listed next.
pub fn pick<J: Job>(
    book: &mut Book<J>,
    lane: &mut Lane<J>,
    at: GatedLine,
    call: CallId,
    word: u64,
) -> Result<(), Halt>
    requires caller { 0 < lane.old.actor }
    requires next { HasNext J.plan lane.old at.line at.after (ListedValue.Pick call word) }
    ensures makes { OnOk result (Makes at.line (answered_call (setting_of J.boot J.target) book.old.entries (Asking.Pick call word)) book.old book.new lane.old lane.new) }
    ensures halts { CanStep lane.old at.after book.old → result ≢ Err Strange }
    ensures none { OnErr result (book.new.entries ≡ book.old.entries) }
{
    if !may_go(book, lane, at.after) {
        return Err(Halt::Strange);
    }
    match book.pick(lane, at.line, call, word) {
        Ok(_) => Ok(()),
        Err(fault) => Err(Halt::from(fault)),
    }
}

/// Has a call leave its cluster, which is listed next.
pub fn commit<J: Job>(
    book: &mut Book<J>,
    lane: &mut Lane<J>,
    at: GatedLine,
    call: CallId,
) -> Result<(), Halt>
    requires caller { 0 < lane.old.actor }
    requires next { HasNext J.plan lane.old at.line at.after (ListedValue.Commit call) }
    ensures makes { OnOk result (Makes at.line (answered_call (setting_of J.boot J.target) book.old.entries (Asking.Commit call)) book.old book.new lane.old lane.new) }
    ensures halts { CanStep lane.old at.after book.old → result ≢ Err Strange }
    ensures none { OnErr result (book.new.entries ≡ book.old.entries) }
{
    if !may_go(book, lane, at.after) {
        return Err(Halt::Strange);
    }
    match book.commit(lane, at.line, call) {
        Ok(_) => Ok(()),
        Err(fault) => Err(Halt::from(fault)),
    }
}
