//! A report is judged from its bytes and those of a session.
ghost use Rattle.std.specs.Prelude.{◌≡◌, ◌⊎◌, ◌-◌, ℕ, Err};
ghost use Rattle.session_lines.specs.Session.{session_of};
ghost use Rattle.session_lines.specs.declared.cause.Cause.{Cause};
ghost use Rattle.judged_session.specs.report_compare.FirstLines.{first_lines};
ghost use Rattle.judged_session.specs.report_compare.declared.mistakes.Mistake.{Mistake as MistakeValue};
ghost use Rattle.report_judge.specs.Verdicts.{BeginsLegalReport, GoesOnLegally, IsLegalReport};

use crate::verdicts::{Verdict, refusal_of};
use header_match::Patterns;
use judged_session::judge_session;
use session_input::session_in;
use std::alloc::Global;
use std::sync::Wait;

/// Judges whether a report is that of a legal history of a session. The session's events are played in the order in which the
/// report's lines name their actors, with the pattern texts refused that its `pat` lines list and those that `patterns`
/// refuses, and what was played is compared with the report.
pub fn judge<R: Wait + Sync, P: Patterns>(
    alloc: Global,
    rt: &R,
    session: &[u8],
    report: &[u8],
    patterns: &mut P,
) -> Verdict
    // The bytes spell a session, and the report is that of a legal history of it.
    ensures legal { result ≡ Verdict.Legal → IsLegalReport session.now report.now }

    // The report of a legal history of it is found legal, unless memory runs out or the builder of patterns refuses a text.
    ensures found { IsLegalReport session.now report.now → P.refused patterns.new ≡ P.refused patterns.old → (result ≡ Verdict.Legal) ⊎ (result ≡ Verdict.Memory) }

    // The lines of the report above the one that is told begin the report of a legal history.
    ensures above { (mistake : MistakeValue) → result ≡ Verdict.NotLegal mistake → BeginsLegalReport session.now (first_lines (mistake.line - 1) report.now) }

    // No report of a legal history has the lines up to the one that is told, if the same patterns are listed behind these.
    ensures wrong { (mistake : MistakeValue) → result ≡ Verdict.NotLegal mistake → P.refused patterns.new ≡ P.refused patterns.old → GoesOnLegally session.now report.now mistake.line → ⊥ }

    // The bytes are no session, and this is the first fault.
    ensures session { (line : ℕ) (cause : Cause) → result ≡ Verdict.Session line cause → session_of session.now ≡ Err record { line = line; cause = cause } }

    // Bytes that are no session are refused with their first fault.
    ensures refused { (line : ℕ) (cause : Cause) → session_of session.now ≡ Err record { line = line; cause = cause }
        → (result ≡ Verdict.Session line cause) ⊎ (result ≡ Verdict.Memory) }
{
    let session = match session_in(alloc, session) {
        Ok(session) => session,
        Err(fault) => return refusal_of(fault),
    };
    match judge_session(rt, alloc, &session, report, patterns) {
        Ok(None) => Verdict::Legal,
        Ok(Some(mistake)) => Verdict::NotLegal(mistake),
        Err(_) => Verdict::Memory,
    }
}
