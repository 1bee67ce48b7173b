//! What is answered of a report.
ghost use Rattle.std.specs.Prelude.{◌≡◌};
ghost use Rattle.report_judge.specs.Verdicts.{refusal_of};

use judged_session::Mistake;
use session_lines::{Cause, SessionFault};

/// What is answered of a report.
#[derive(Drop)]
pub enum Verdict {
    /// It is that of a legal history of the session.
    Legal,
    /// It isn't: the first line at which no such history's report goes on so that lists the same patterns, and why.
    NotLegal(Mistake),
    /// The bytes aren't a session: the first fault, and the number of its line.
    Session { line: u32, cause: Cause },
    /// There was no memory.
    Memory,
}

/// The answer for bytes that are no session, or that weren't read as one for want of memory.
pub(crate) fn refusal_of(fault: SessionFault) -> Verdict
    ensures { result ≡ refusal_of fault }
{
    match fault {
        SessionFault::Script { line, cause } => Verdict::Session { line, cause },
        SessionFault::Memory => Verdict::Memory,
    }
}
