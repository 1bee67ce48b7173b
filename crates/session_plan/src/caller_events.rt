//! The list of a caller.
ghost use Rattle.std.specs.Prelude.{◌≡◌, ◌++◌, IfOk, OnOk};
ghost use Rattle.session_plan.specs.PlanOfSession.{act_event, caller_plan, events_for};

use call_journal::{Listed, ListedEvent};
use session_lines::{Act, Line, Work};
use std::alloc::Global;
use xc_base::{List, Memory};

/// The event that an act lists.
fn act_event(act: &Act) -> Result<ListedEvent, Memory>
    ensures { IfOk result (λ event. event ≡ act_event act.now) }
{
    match act {
        Act::Start(call) => Ok(ListedEvent::Start(call.share()?)),
        Act::Pick { call, word } => Ok(ListedEvent::Pick {
            call: *call,
            word: *word,
        }),
        Act::Commit(call) => Ok(ListedEvent::Commit(*call)),
    }
}

/// Adds the event that a line lists for a caller, if it is one of this caller.
fn add_line(caller: u16, line: &Line, list: &mut List<Listed>) -> Result<(), Memory>
    ensures { OnOk result (list.new ≡ list.old ++ events_for caller line.now) }
{
    match &line.work {
        Work::Driver(_) => Ok(()),
        Work::Caller { caller: other, act } => {
            if *other == caller {
                let event = act_event(act)?;
                list.push(Listed {
                    line: line.number,
                    after: line.gate,
                    event,
                })?;
            }
            Ok(())
        }
    }
}

/// The listed events of a caller, in the order of its lines.
#[tactic(auto, using(crate::proofs::ListLemmas::one_line))]
pub(crate) fn caller_list(
    alloc: Global,
    caller: u16,
    lines: &[Line],
) -> Result<List<Listed>, Memory>
    ensures { IfOk result (λ list. list ≡ caller_plan lines.now caller) }
{
    let mut list = List::new(alloc);
    for line in lines {
        add_line(caller, line, &mut list)?;
    }
    Ok(list)
}
