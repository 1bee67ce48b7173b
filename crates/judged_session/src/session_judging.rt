//! A report of a session is judged.
ghost use Rattle.std.specs.Prelude.{◌≡◌, ◌⊎◌, ◌<◌, ◌-◌, ℕ, List, All, IfOk, IfSome, None, Ok};
ghost use Rattle.session_lines.specs.Session.{session_of};
ghost use Rattle.call_journal.specs.declared.entry.Entry.{Entry as EntryValue};
ghost use Rattle.report_replay.specs.legal_history.Legal.{Legal};
ghost use Rattle.report_replay.specs.text_law.TextLaw.{text_of};
ghost use Rattle.report_replay.specs.turn_law.TurnLaw.{IsTurn};
ghost use Rattle.session_plan.specs.PlanOfSession.{plan_of};
ghost use Rattle.session_plan.specs.ReadablePayloads.{is_response};
ghost use Rattle.report_replay.specs.completion_law.CompletionLaw.{HasNoSweep};
ghost use Rattle.report_replay.specs.ReplayedTurns.{IsBeyond};
ghost use Rattle.report_replay.specs.report_compare.FirstLines.{first_lines};
ghost use Rattle.report_replay.specs.report_compare.LegalReports.{BeginsReport, IsReportOf};
ghost use Rattle.report_replay.specs.session_player.Stages.{IsOfSession};
ghost use Rattle.session_shape.specs.SessionShape.{IsWellFormed};
ghost use Rattle.judged_session.specs.JudgedTurns.{IsAllPlayed, IsApart, IsWhole, IsWrongAt, IsWrongFor};

use crate::played_reports::{Outcome, play_report};
use crate::session_book::begin_book;
use crate::split_lanes::split_lanes;
use crate::trials::Trial;
use closed_book::{ClosedBook, Stop};
use cluster_tree::Snapshot;
use header_match::Patterns;
use report_replay::{Book, Job, Lane, Mistake, PlayedPart, compare, compare_until};
use session_lines::Session;
use session_plan::plan_session;
use snapshot_store::Archive;
use std::alloc::{AllocError, Global};
use std::marker::Brand;
use std::sync::Wait;
use std::sync::ledger::{Blank, Ledger};
use xc_base::{List, Memory, Shared};

/// The mistake of a report whose turns don't play all that is listed, where this Book was played.
fn judge_stopped<J: Job>(
    trial: Trial<'_>,
    book: Book<J>,
    mistake: Mistake,
) -> Result<Mistake, Memory>
    requires of { IsOfSession J.plan J.boot J.target trial.session.now trial.plan.actors }
    requires no_sweep { HasNoSweep book.entries }
    ensures line { IfOk result (λ told. 0 < told.line) }
    ensures above { IfOk result (λ told. BeginsReport trial.entry.session.now (first_lines (told.line - 1) trial.entry.report.now)) }
    ensures wrong { IfOk result (λ told. IsApart trial.entry.session.now trial.entry.report.now told.line (λ history parting. IsBeyond trial.entry.session.now history parting book)) }
{
    let (journal, history) = book.finish(List::new(trial.alloc));
    let part = PlayedPart {
        session: trial.session,
        journal: &journal,
        history: &history,
    };
    compare_until(trial.alloc, part, trial.report, mistake)
}

/// Compares a report with what was played, where its turns play all that is listed before the last sweep. That is made here,
/// whether or not the report has it.
fn judge_whole<J: Job, L: Ledger, R: Wait + Sync>(
    rt: &R,
    blank: Blank,
    trial: Trial<'_>,
    book: Book<J>,
    lanes: Vec<Lane<J>>,
) -> Result<Option<Mistake>, Memory>
    requires name { blank.name ≡ L.name }
    requires parts { blank.parts ≡ L.parts }
    requires some { 0 < blank.parts }
    requires of { IsOfSession J.plan J.boot J.target trial.session.now trial.plan.actors }
    requires played { IsAllPlayed trial.plan.actors book lanes.items }
    ensures legal { result ≡ Ok None → IsReportOf trial.entry.session.now trial.entry.report.now }
    ensures line { IfOk result (λ found. IfSome found (λ mistake. 0 < mistake.line)) }
    ensures above { IfOk result (λ found. IfSome found (λ mistake. BeginsReport trial.entry.session.now (first_lines (mistake.line - 1) trial.entry.report.now))) }
    ensures found { IfOk result (λ found. (history : List EntryValue) → Legal trial.entry.session.now history → text_of trial.entry.session.now history ≡ trial.entry.report.now → IsWhole history book → found ≡ None) }
    ensures wrong { IfOk result (λ found. IfSome found (λ mistake. IsApart trial.entry.session.now trial.entry.report.now mistake.line (λ history parting. IsWhole history book ⊎ IsBeyond trial.entry.session.now history parting book))) }
{
    let _actors = book.actors();
    let lanes = split_lanes(lanes);
    let Trial {
        alloc,
        session,
        plan,
        report,
    } = trial;
    let closed = ClosedBook {
        book,
        lanes: lanes.callers,
        plan,
    };
    let played = match closed.report::<R, L>(rt, blank, lanes.driver) {
        Ok(played) => played,
        Err(Stop::Strange) => unreachable!(),
        Err(Stop::Memory) => return Err(AllocError),
    };
    let part = PlayedPart {
        session,
        journal: &played.journal,
        history: &played.history,
    };
    compare(alloc, part, report)
}

/// Judges a report on a Book of the session.
fn judge_by<J: Job, L: Ledger, R: Wait + Sync, P: Patterns>(
    rt: &R,
    blank: Blank,
    trial: Trial<'_>,
    archive: Shared<Archive<Snapshot>>,
    patterns: &mut P,
) -> Result<Option<Mistake>, Memory>
    requires name { blank.name ≡ L.name }
    requires parts { blank.parts ≡ L.parts }
    requires some { 0 < blank.parts }
    requires of { IsOfSession J.plan J.boot J.target trial.session.now trial.plan.actors }
    requires archive { archive ≡ J.archive }
    ensures legal { result ≡ Ok None → IsReportOf trial.entry.session.now trial.entry.report.now }
    ensures line { IfOk result (λ found. IfSome found (λ mistake. 0 < mistake.line)) }
    ensures above { IfOk result (λ found. IfSome found (λ mistake. BeginsReport trial.entry.session.now (first_lines (mistake.line - 1) trial.entry.report.now))) }
    ensures wrong { P.refused patterns.new ≡ P.refused patterns.old → IfOk result (λ found. IfSome found (λ mistake. IsWrongAt trial.entry.session.now trial.entry.report.now mistake.line)) }
    ensures found { IfOk result (λ mistake. (history : List EntryValue) → Legal trial.entry.session.now history → All IsTurn history → text_of trial.entry.session.now history ≡ trial.entry.report.now → P.refused patterns.new ≡ P.refused patterns.old → mistake ≡ None) }
{
    let (book, lanes) = begin_book::<J>(trial.alloc, trial.session, &trial.plan, archive)?;
    let mut book = book;
    let outcome = play_report::<J, Brand, R, P>(
        rt,
        Blank::new(1),
        &trial,
        &mut book,
        lanes,
        patterns,
    )?;
    match outcome {
        Outcome::Whole(lanes) => judge_whole::<J, L, R>(rt, blank, trial, book, lanes),
        Outcome::Stopped(mistake) => {
            let told = judge_stopped(trial, book, mistake)?;
            Ok(Some(told))
        }
    }
}

/// Judges a report of a session whose plan is made.
fn judge_planned<R: Wait + Sync, P: Patterns>(
    rt: &R,
    trial: Trial<'_>,
    archive: Shared<Archive<Snapshot>>,
    patterns: &mut P,
) -> Result<Option<Mistake>, Memory>
    requires formed { IsWellFormed trial.session.now }
    requires plan { trial.plan.actors ≡ plan_of is_response trial.session.now }
    ensures legal { result ≡ Ok None → IsReportOf trial.entry.session.now trial.entry.report.now }
    ensures line { IfOk result (λ found. IfSome found (λ mistake. 0 < mistake.line)) }
    ensures above { IfOk result (λ found. IfSome found (λ mistake. BeginsReport trial.entry.session.now (first_lines (mistake.line - 1) trial.entry.report.now))) }
    ensures wrong { P.refused patterns.new ≡ P.refused patterns.old → IfOk result (λ found. IfSome found (λ mistake. IsWrongAt trial.entry.session.now trial.entry.report.now mistake.line)) }
    ensures found { IfOk result (λ mistake. (history : List EntryValue) → Legal trial.entry.session.now history → All IsTurn history → text_of trial.entry.session.now history ≡ trial.entry.report.now → P.refused patterns.new ≡ P.refused patterns.old → mistake ≡ None) }
{
    judge_by::<Brand, Brand, R, P>(rt, Blank::new(1), trial, archive, patterns)
}

/// Judges a report of a session: the turns that its lines name are played on one thread, in their order, with the pattern
/// texts refused that it lists, and what was played is compared with it. None is that it is the report of a legal history of
/// the session; else it is the first mistake. It fails for want of memory alone.
pub fn judge_session<R: Wait + Sync, P: Patterns>(
    rt: &R,
    alloc: Global,
    session: &Session,
    report: &[u8],
    patterns: &mut P,
) -> Result<Option<Mistake>, Memory>
    requires formed { IsWellFormed session.now }
    ensures legal { result ≡ Ok None → IsReportOf session.now report.now }
    ensures line { IfOk result (λ found. IfSome found (λ mistake. 0 < mistake.line)) }
    ensures above { IfOk result (λ found. IfSome found (λ mistake. BeginsReport session.now (first_lines (mistake.line - 1) report.now))) }
    ensures wrong { P.refused patterns.new ≡ P.refused patterns.old → IfOk result (λ found. IfSome found (λ mistake. IsWrongFor session.now report.now mistake.line)) }
    ensures found { IfOk result (λ mistake. (bytes : List ℕ) → session_of bytes ≡ Ok session.now → IsReportOf session.now report.now → P.refused patterns.new ≡ P.refused patterns.old → mistake ≡ None) }
{
    let plan = plan_session(alloc, session)?;
    let archive = Shared::new(alloc, Archive::new(alloc)?)?;
    let trial = Trial {
        alloc,
        session,
        plan,
        report,
    };
    judge_planned(rt, trial, archive, patterns)
}
