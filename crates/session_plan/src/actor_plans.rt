//! The plan of all actors.
ghost use Rattle.std.specs.Prelude.{◌≡◌, ◌++◌, map, IfOk, OnOk};
ghost use Rattle.std.specs.List.{range_with_len};
ghost use Rattle.session_plan.specs.PlanOfSession.{caller_plan, plan_of};
ghost use Rattle.session_plan.specs.ReadablePayloads.{is_response};

use crate::caller_events::caller_list;
use crate::driver_events::driver_list;
use call_journal::{Listed, Plan};
use session_lines::{Line, Session};
use std::alloc::Global;
use xc_base::{List, Memory};

/// Adds the lists of so many callers, the first caller's first.
#[tactic(auto, using(crate::proofs::ListLemmas::callers_more))]
fn add_callers(
    alloc: Global,
    callers: u16,
    lines: &[Line],
    actors: &mut List<List<Listed>>,
) -> Result<(), Memory>
    ensures { OnOk result (actors.new ≡ actors.old ++ map (caller_plan lines.now) (range_with_len 1 callers)) }
{
    for before in 0..callers {
        let list = caller_list(alloc, before + 1, lines)?;
        actors.push(list)?;
    }
    Ok(())
}

/// Makes the plan of a session: the driver's list first, then that of each caller from caller 1 on. The driver's
/// list has what its lines make, in their order, and ends in the last sweep, which has line 0. Of a data line these
/// are the responses whose frames end in it, up to the first that can't be read, and then what became of the bytes;
/// frames are those of all bytes that came since the stream was opened. No response is built.
pub fn plan_session(alloc: Global, session: &Session) -> Result<Plan, Memory>
    ensures { IfOk result (λ plan. plan.actors ≡ plan_of is_response session.now) }
{
    let lines = session.lines.as_slice();
    let driver = driver_list(alloc, lines)?;
    let mut actors = List::new(alloc);
    actors.push(driver)?;
    add_callers(alloc, session.callers, lines, &mut actors)?;
    Ok(Plan { actors })
}
