//! The list of the driver.
ghost use Rattle.std.specs.Prelude.{◌≡◌, ◌++◌, map, IfOk, OnOk};
ghost use Rattle.session_script.specs.Plan.{Streams, last_sweep, listed_for, work_events, work_streams};
ghost use Rattle.session_plan.specs.ComingFrames.{AreWaiting};
ghost use Rattle.session_plan.specs.PlanOfSession.{driver_plan, plan_item};
ghost use Rattle.session_plan.specs.ReadablePayloads.{is_response};

use crate::waiting_frames::{Waiting, add_events};
use call_journal::{DriverEvent, Listed, ListedEvent};
use session_lines::{Line, Work};
use std::alloc::Global;
use std::collections::BTreeMap;
use xc_base::{List, Memory};

/// Lists the events of a line, each with the line's number and its gate.
fn list_events(
    line: &Line,
    events: List<DriverEvent>,
    list: &mut List<Listed>,
) -> Result<(), Memory>
    ensures { OnOk result (list.new ≡ list.old ++ map plan_item (map (listed_for line.now) events)) }
{
    for event in events.into_vec() {
        list.push(Listed {
            line: line.number,
            after: line.gate,
            event: ListedEvent::Driver(event),
        })?;
    }
    Ok(())
}

/// Lists what a line makes for the driver, and leaves what waits after it. On `Err` these are anything.
fn list_line(
    alloc: Global,
    line: &Line,
    waiting: &mut Waiting,
    list: &mut List<Listed>,
) -> Result<(), Memory>
    ensures list { OnOk result ((s : Streams) → AreWaiting s waiting.old
        → list.new ≡ list.old ++ map plan_item (map (listed_for line.now) (work_events is_response s line.now.work))) }
    ensures waiting { OnOk result ((s : Streams) → AreWaiting s waiting.old → AreWaiting (work_streams is_response s line.now.work) waiting.new) }
{
    match &line.work {
        Work::Driver(what) => {
            let mut events = List::new(alloc);
            add_events(alloc, what, waiting, &mut events)?;
            list_events(line, events, list)?;
            Ok(())
        }
        Work::Caller { .. } => Ok(()),
    }
}

/// The last sweep, which no line has.
fn last_sweep() -> Listed
    ensures { result ≡ plan_item last_sweep }
{
    Listed {
        line: 0,
        after: None,
        event: ListedEvent::Driver(DriverEvent::Sweep),
    }
}

/// The listed events of the driver, in the order of its lines, and the last sweep.
pub(crate) fn driver_list(alloc: Global, lines: &[Line]) -> Result<List<Listed>, Memory>
    ensures { IfOk result (λ list. list ≡ driver_plan is_response lines.now) }
{
    let mut waiting = BTreeMap::new(alloc);
    let mut list = List::new(alloc);
    for line in lines {
        list_line(alloc, line, &mut waiting, &mut list)?;
    }
    list.push(last_sweep())?;
    Ok(list)
}
