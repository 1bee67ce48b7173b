//! A session, played by threads from its beginning to its end.
ghost use Rattle.std.specs.Prelude.{◌≡◌, ◌≤◌, ◌<◌, [], length, IfOk, IfErr};
ghost use Rattle.snapshot_store.specs.Tickets.{values_of};
ghost use Rattle.session_plan.specs.PlanOfSession.{plan_of};
ghost use Rattle.session_plan.specs.ReadablePayloads.{is_response};
ghost use Rattle.channel_crossing.specs.xds_history.Pages.{pages};
ghost use Rattle.channel_crossing.specs.xds_history.References.{snapshots_of};
ghost use Rattle.channel_crossing.specs.xds_history.Setting.{setting_of};
ghost use Rattle.closed_book.specs.legal_history.Legal.{Legal};
ghost use Rattle.book_progress.specs.ProgressKept.{most_entries};
ghost use Rattle.closed_book.specs.xds_book.BookEntries.{first_lane};
ghost use Rattle.session_shape.specs.SessionShape.{IsWellFormed};
ghost use Rattle.closed_book.specs.session_player.Stages.{IsOfSession, Refuses};
ghost use Rattle.threaded_player.specs.ThreadedPlay.{HasGrown, IsDriverFrom};
ghost use Rattle.std.specs.Thread.{IsSync};

use crate::driver_part::drive_here;
use crate::players::Players;
use call_journal::Plan;
use caller_threads::work_beside;
use channel_crossing::Gate;
use closed_book::{Job, Lane, Played, Stop, play};
use cluster_tree::Snapshot;
use header_match::Patterns;
use session_lines::Session;
use session_plan::plan_session;
use snapshot_store::Archive;
use std::alloc::{AllocError, Global};
use std::marker::Brand;
use std::sync::Wait;
use std::sync::ledger::{Blank, Ledger};
use std::thread::Threads;
use xc_base::{Memory, Shared};

/// A session with its plan, and the archive into which its snapshots go.
#[derive(Drop)]
struct Staging<'a> {
    alloc: Global,
    session: &'a Session,
    plan: Plan,
    archive: Shared<Archive<Snapshot>>,
}

/// Has each caller play on a thread of its own, and the driver on this one, and returns once all have ended. It hands the
/// driver's lane back.
fn play_beside<J: Job + Send, R: Threads + Wait + Sync, G: Gate + Sync, P: Patterns>(
    rt: &R,
    players: &Players<J>,
    gate: &G,
    driver: Lane<J>,
    patterns: &mut P,
) -> Result<Lane<J>, Stop>
    requires first { driver ≡ first_lane 0 }
    ensures grown { HasGrown (P.refused patterns.old) (P.refused patterns.new) }
    ensures driven { IfOk result (IsDriverFrom (P.refused patterns.old) (P.refused patterns.new)) }
{
    let (driven, patterns) = work_beside(
        rt,
        players,
        gate,
        players.seats.len(),
        move || -> (Result<Lane<J>, Stop>, &mut P)
            requires { IsSync R.row × (driver ≡ first_lane 0) }
            ensures name { result.1.ghost_name ≡ patterns.entry.ghost_name }
            ensures grown { HasGrown (P.refused patterns.entry.now) (P.refused result.1.now) }
            ensures driven { IfOk result.0 (IsDriverFrom (P.refused patterns.entry.now) (P.refused result.1.now)) }
        { drive_here(players, rt, gate, driver, patterns) },
    );
    let _patterns = patterns;
    driven
}

/// Plays a session by its plan on a channel.
fn play_by<J: Job + Send, L: Ledger, R: Threads + Wait + Sync, G: Gate + Sync, P: Patterns>(
    rt: &R,
    blank: Blank,
    staging: Staging<'_>,
    gate: &G,
    patterns: &mut P,
) -> Result<Played, Stop>
    requires name { blank.name ≡ L.name }
    requires parts { blank.parts ≡ L.parts }
    requires some { 0 < blank.parts }
    requires of { IsOfSession J.plan J.boot J.target staging.session.now staging.plan.actors }
    requires archive { staging.archive ≡ J.archive }
    ensures grown { HasGrown (P.refused patterns.old) (P.refused patterns.new) }
    ensures legal { IfOk result (λ played. Legal staging.entry.session.now played.journal.entries) }
    ensures snapshots { IfOk result (λ played. values_of played.history.tickets ≡ snapshots_of (pages (setting_of staging.entry.session.now.boot staging.entry.session.now.target) played.journal.entries)) }
    ensures few { IfOk result (λ played. length played.history.tickets ≤ most_entries) }
    ensures refused { IfOk result (λ played. Refuses [] played.journal.entries (P.refused patterns.old) (P.refused patterns.new)) }
{
    let Staging {
        alloc,
        session,
        plan,
        archive,
    } = staging;
    let (players, driver) = Players::<J>::begin(alloc, session, plan, archive)?;
    let driver = play_beside(rt, &players, gate, driver, patterns)?;
    let closed = players.close()?;
    closed.report::<R, L>(rt, blank, driver)
}

/// Plays a session whose plan is made on a channel.
fn play_planned<R: Threads + Wait + Sync, G: Gate + Sync, P: Patterns>(
    rt: &R,
    staging: Staging<'_>,
    gate: &G,
    patterns: &mut P,
) -> Result<Played, Stop>
    requires formed { IsWellFormed staging.session.now }
    requires plan { staging.plan.actors ≡ plan_of is_response staging.session.now }
    ensures grown { HasGrown (P.refused patterns.old) (P.refused patterns.new) }
    ensures legal { IfOk result (λ played. Legal staging.entry.session.now played.journal.entries) }
    ensures snapshots { IfOk result (λ played. values_of played.history.tickets ≡ snapshots_of (pages (setting_of staging.entry.session.now.boot staging.entry.session.now.target) played.journal.entries)) }
    ensures few { IfOk result (λ played. length played.history.tickets ≤ most_entries) }
    ensures refused { IfOk result (λ played. Refuses [] played.journal.entries (P.refused patterns.old) (P.refused patterns.new)) }
{
    play_by::<Brand, Brand, R, G, P>(rt, Blank::new(1), staging, gate, patterns)
}

/// Plays a session on a channel: the driver on this thread, and each caller on one of its own. A caller whose thread can't be
/// started is played by this thread, in the order of the file. The gate is told of each call between its pin and its hold,
/// and of each line that has ended. Once all threads have ended the last sweep is made.
///
/// Where a lane isn't of the Book or not all that is listed was played, all lines are played once more, on this thread and in
/// the order of the file, and the gate is told nothing of it. The history is a legal one of the session, and what it refuses is
/// among what `patterns` refused in the meantime, in the same order. It fails for want of memory alone.
pub fn play_on_threads<R: Threads + Wait + Sync, G: Gate + Sync, P: Patterns>(
    rt: &R,
    alloc: Global,
    session: &Session,
    gate: &G,
    patterns: &mut P,
) -> Result<Played, Memory>
    requires formed { IsWellFormed session.now }
    ensures legal { IfOk result (λ played. Legal session.now played.journal.entries) }
    ensures snapshots { IfOk result (λ played. values_of played.history.tickets ≡ snapshots_of (pages (setting_of session.now.boot session.now.target) played.journal.entries)) }
    ensures few { IfOk result (λ played. length played.history.tickets ≤ most_entries) }
    ensures refused { IfOk result (λ played. Refuses [] played.journal.entries (P.refused patterns.old) (P.refused patterns.new)) }
{
    let plan = plan_session(alloc, session)?;
    let archive = Shared::new(alloc, Archive::new(alloc)?)?;
    let staging = Staging {
        alloc,
        session,
        plan,
        archive,
    };
    match play_planned(rt, staging, gate, patterns) {
        Ok(played) => Ok(played),
        Err(Stop::Memory) => Err(AllocError),
        Err(Stop::Strange) => play(rt, alloc, session, patterns),
    }
}
