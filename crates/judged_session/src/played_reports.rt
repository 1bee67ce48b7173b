//! The turns of a report, played on the Book of its session.
ghost use Rattle.std.specs.Prelude.{◌≡◌, ◌<◌, ◌+◌, ℕ, List, length, map, IfOk};
ghost use Rattle.std.specs.List.{range_with_len};
ghost use Rattle.call_journal.specs.declared.entry.Entry.{Entry as EntryValue};
ghost use Rattle.session_lines.specs.declared.session.Session.{Session as SessionValue};
ghost use Rattle.report_replay.specs.text_law.TextLaw.{text_of};
ghost use Rattle.report_replay.specs.alike_law.AlikeTexts.{PartsAt};
ghost use Rattle.report_replay.specs.xds_book.BookEntries.{first_lane};
ghost use Rattle.report_replay.specs.session_player.Stages.{IsOfSession};
ghost use Rattle.report_replay.specs.turn_player.TurnPlans.{IsTurnPlan};
ghost use Rattle.report_replay.specs.ReplayedTurns.{IsLegalReplay};
ghost use Rattle.judged_session.specs.JudgedTurns.{IsAnyOutcome, IsBesideOutcome, IsFirst};

use crate::trials::Trial;
use header_match::Patterns;
use report_replay::{Book, Job, Lane, Mistake, Replay, Table};
use std::sync::Wait;
use std::sync::ledger::{Blank, Ledger};
use xc_base::{List, Memory, Steps};

/// What came of the turns of a report.
#[derive(Drop)]
pub(crate) enum Outcome<J: Job> {
    /// All that is listed before the last sweep was played: the lanes, the driver's first.
    Whole(Vec<Lane<J>>),
    /// The first turn that can't be played, or the end of a report whose turns don't play all that is listed.
    Stopped(Mistake),
}

/// Plays the turns of a report on the Book of its session, in which nothing was done.
pub(crate) fn play_report<J: Job, L: Ledger, R: Wait + Sync, P: Patterns>(
    rt: &R,
    blank: Blank,
    trial: &Trial<'_>,
    book: &mut Book<J>,
    lanes: List<Lane<J>>,
    patterns: &mut P,
) -> Result<Outcome<J>, Memory>
    requires name { blank.name ≡ L.name }
    requires parts { blank.parts ≡ L.parts }
    requires some { 0 < blank.parts }
    requires plan { IsTurnPlan J.plan (length J.boot.authorities) trial.now.plan.actors }
    ensures any { IfOk result (λ outcome. (session : SessionValue) (callers : ℕ) → IsOfSession J.plan J.boot J.target session trial.now.plan.actors → IsFirst callers book.old → lanes ≡ map first_lane (range_with_len 0 (callers + 1)) → IsAnyOutcome trial.now.plan.actors book.new outcome) }
    ensures beside { IfOk result (λ outcome. (session : SessionValue) (history : List EntryValue) (callers number : ℕ) (parts : PartsAt number trial.now.report.now (text_of session history)) → IsLegalReplay J.plan J.boot J.target session history trial.now.plan.actors → 0 < number → IsFirst callers book.old → lanes ≡ map first_lane (range_with_len 0 (callers + 1)) → P.refused patterns.new ≡ P.refused patterns.old → IsBesideOutcome session history parts.parting book.new outcome) }
{
    let steps = Steps::<L>::new(blank);
    let table = Table::new(trial.alloc, lanes, steps)?;
    let mut replay = Replay::new(&trial.plan, table, trial.report);
    let mistake = replay.play_all(rt, book, patterns)?;
    let _actors = book.actors();
    match mistake {
        Some(mistake) => Ok(Outcome::Stopped(mistake)),
        None => {
            let lanes = replay.into_lanes()?;
            Ok(Outcome::Whole(lanes))
        }
    }
}
