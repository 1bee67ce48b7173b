//! A session, played from its beginning to its end.
ghost use Rattle.std.specs.Prelude.{◌≡◌, ◌≤◌, ◌<◌, ◌+◌, [], length, IfOk, Some};
ghost use Rattle.snapshot_store.specs.Tickets.{values_of};
ghost use Rattle.session_plan.specs.PlanOfSession.{plan_of};
ghost use Rattle.session_plan.specs.ReadablePayloads.{is_response};
ghost use Rattle.legal_plan.specs.xds_history.Pages.{pages};
ghost use Rattle.legal_plan.specs.xds_history.References.{snapshots_of};
ghost use Rattle.legal_plan.specs.xds_history.Setting.{setting_of};
ghost use Rattle.legal_plan.specs.legal_history.Legal.{Legal};
ghost use Rattle.book_progress.specs.ProgressKept.{most_entries};
ghost use Rattle.session_shape.specs.SessionShape.{IsWellFormed};
ghost use Rattle.session_player.specs.Stages.{IsOfSession, Refuses};

use crate::script::Script;
use crate::stage::Stage;
use call_journal::{Journal, Plan};
use cluster_tree::Snapshot;
use header_match::Patterns;
use session_lines::Session;
use session_plan::plan_session;
use snapshot_store::{Archive, History};
use std::alloc::Global;
use std::marker::Brand;
use std::sync::Wait;
use std::sync::ledger::{Blank, Ledger};
use xc_base::{Memory, Shared, Steps};
use xds_book::Job;

/// What was played: the journal, and the snapshots that were published.
#[derive(Drop)]
pub struct Played {
    pub journal: Journal,
    pub history: History<Snapshot>,
}

/// Plays a session by its plan, whose snapshots go into an archive.
fn play_by<J: Job, L: Ledger, R: Wait + Sync, P: Patterns>(
    rt: &R,
    blank: Blank,
    script: &Script<'_>,
    archive: Shared<Archive<Snapshot>>,
    patterns: &mut P,
) -> Result<Played, Memory>
    requires name { blank.name ≡ L.name }
    requires parts { blank.parts ≡ L.parts }
    requires some { 0 < blank.parts }
    requires of { IsOfSession J.plan J.boot J.target script.now.session.now script.now.plan.now.actors }
    requires archive { archive ≡ J.archive }
    ensures legal { IfOk result (λ played. Legal script.now.session.now played.journal.entries) }
    ensures snapshots { IfOk result (λ played. values_of played.history.tickets ≡ snapshots_of (pages (setting_of script.now.session.now.boot script.now.session.now.target) played.journal.entries)) }
    ensures few { IfOk result (λ played. length played.history.tickets ≤ most_entries) }
    ensures refused { IfOk result (λ played. Refuses [] played.journal.entries (P.refused patterns.old) (P.refused patterns.new)) }
{
    let steps = Steps::<L>::new(blank);
    let mut stage = Stage::<J, L>::begin(script.alloc, script.session, archive, steps)?;
    script.play(rt, &mut stage, patterns)?;
    let (journal, history) = stage.finish();
    Ok(Played { journal, history })
}

/// Plays a session whose plan is made.
fn play_planned<R: Wait + Sync, P: Patterns>(
    rt: &R,
    alloc: Global,
    session: &Session,
    plan: &Plan,
    patterns: &mut P,
) -> Result<Played, Memory>
    requires formed { IsWellFormed session.now }
    requires plan { plan.now.actors ≡ plan_of is_response session.now }
    ensures legal { IfOk result (λ played. Legal session.now played.journal.entries) }
    ensures snapshots { IfOk result (λ played. values_of played.history.tickets ≡ snapshots_of (pages (setting_of session.now.boot session.now.target) played.journal.entries)) }
    ensures few { IfOk result (λ played. length played.history.tickets ≤ most_entries) }
    ensures refused { IfOk result (λ played. Refuses [] played.journal.entries (P.refused patterns.old) (P.refused patterns.new)) }
{
    let archive = Shared::new(alloc, Archive::new(alloc)?)?;
    let script = Script {
        alloc,
        session,
        plan,
    };
    play_by::<Brand, Brand, R, P>(rt, Blank::new(1), &script, archive, patterns)
}

/// Plays a session on one thread, in the order of the file: each line of the driver and of each caller, and then the last
/// sweep. The history is a legal one of the session, and what it refuses is among what `patterns` refused in the meantime, in
/// the same order. It fails for want of memory alone.
pub fn play<R: Wait + Sync, P: Patterns>(
    rt: &R,
    alloc: Global,
    session: &Session,
    patterns: &mut P,
) -> Result<Played, Memory>
    requires formed { IsWellFormed session.now }
    ensures legal { IfOk result (λ played. Legal session.now played.journal.entries) }
    ensures snapshots { IfOk result (λ played. values_of played.history.tickets ≡ snapshots_of (pages (setting_of session.now.boot session.now.target) played.journal.entries)) }
    ensures few { IfOk result (λ played. length played.history.tickets ≤ most_entries) }
    ensures refused { IfOk result (λ played. Refuses [] played.journal.entries (P.refused patterns.old) (P.refused patterns.new)) }
{
    let plan = plan_session(alloc, session)?;
    let played = play_planned(rt, alloc, session, &plan, patterns)?;
    Ok(played)
}
