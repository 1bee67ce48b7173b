//! What comes of a turn that was to be played.
ghost use Rattle.std.specs.Prelude.{◌≡◌, ◌≢◌, IfOk, None, Ok};
ghost use Rattle.replay_steps.specs.NextTurns.{IsNextAfter, IsWrong};

use report_compare::{Mistake, Why};
use report_turns::Misplaced;
use std::alloc::AllocError;
use turn_steps::Halt;
use xc_base::Memory;

/// What comes of what is found next in a report.
#[derive(Drop)]
pub enum Next {
    /// A turn was played.
    Played,
    /// The last sweep was read, or the report's turns end; and all that is listed before the last sweep is played.
    End,
    /// The turn can't be played, or the turns end too early.
    Wrong(Mistake),
}

/// What comes of a turn that was to be played. The numbers are those of the report's line and of the session's, which is 0 for
/// the last sweep. It fails for want of memory alone.
pub fn next_after(
    number: usize,
    line: u32,
    played: Result<Option<Misplaced>, Halt>,
) -> Result<Next, Memory>
    ensures after { IsNextAfter line played result }
    ensures wrong { played ≢ Ok None → IfOk result IsWrong }
{
    match played {
        Ok(None) if line == 0 => Ok(Next::End),
        Ok(None) => Ok(Next::Played),
        Ok(Some(why)) => Ok(Next::Wrong(Mistake {
            line: number,
            why: Why::Misplaced { line, why },
        })),
        Err(Halt::Strange) => Ok(Next::Wrong(Mistake::stuck(number))),
        Err(Halt::Memory) => Err(AllocError),
    }
}
