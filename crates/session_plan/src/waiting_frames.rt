//! What waits on the streams of all authorities while the driver's lines are gone through.
ghost use Rattle.std.specs.Prelude.{◌≡◌, ◌++◌, ℕ, None, OnOk};
ghost use Rattle.std.specs.BTreeMap.{get};
ghost use Rattle.std.specs.Ordering.{nat_cmp};
ghost use Rattle.session_script.specs.Plan.{Streams, came_after, data_events, events_of, streams_after, with_stream};
ghost use Rattle.session_plan.specs.ComingFrames.{AreWaiting, Sets};
ghost use Rattle.session_plan.specs.ReadablePayloads.{is_response};

use crate::coming_frames::data_line;
use call_journal::DriverEvent;
use grpc_framing::Frames;
use session_lines::DriverLine;
use std::alloc::Global;
use std::collections::BTreeMap;
use xc_base::{Authority, List, Memory};

/// The frames of each stream that is up, by the place of its authority.
pub(crate) type Waiting = BTreeMap<u16, Frames>;

/// Takes out the frames of a stream, if it is up.
fn take_frames(waiting: &mut Waiting, authority: Authority) -> Option<Frames>
    ensures found { result ≡ get nat_cmp waiting.old authority.0 }
    ensures gone { Sets waiting.old waiting.new authority.0 None }
{
    waiting.remove(&authority.0)
}

/// Sets the frames of a stream, or takes them away.
fn set_frames(
    waiting: &mut Waiting,
    authority: Authority,
    frames: Option<Frames>,
) -> Result<(), Memory>
    ensures { OnOk result (Sets waiting.old waiting.new authority.0 frames) }
{
    match frames {
        Some(frames) => {
            waiting.insert(authority.0, frames)?;
        }
        None => {
            waiting.remove(&authority.0);
        }
    }
    Ok(())
}

/// Adds the events of a data line, and leaves what waits after it. On `Err` these are anything.
fn add_data(
    alloc: Global,
    authority: Authority,
    bytes: &[u8],
    waiting: &mut Waiting,
    out: &mut List<DriverEvent>,
) -> Result<(), Memory>
    ensures events { OnOk result ((s : Streams) → AreWaiting s waiting.old → out.new ≡ out.old ++ data_events is_response authority (s authority.0) bytes.now) }
    ensures waiting { OnOk result ((s : Streams) → AreWaiting s waiting.old → AreWaiting (with_stream authority (came_after is_response (s authority.0) bytes.now) s) waiting.new) }
{
    let mut frames = take_frames(waiting, authority);
    data_line(alloc, authority, bytes, &mut frames, out)?;
    set_frames(waiting, authority, frames)?;
    Ok(())
}

/// Adds the events of a line of the driver, and leaves what waits after it. On `Err` these are anything.
#[tactic(auto, using(crate::proofs::WaitingLemmas::set_waits, crate::proofs::ComingLemmas::opened_waits))]
pub(crate) fn add_events(
    alloc: Global,
    what: &DriverLine,
    waiting: &mut Waiting,
    out: &mut List<DriverEvent>,
) -> Result<(), Memory>
    ensures events { OnOk result ((s : Streams) → AreWaiting s waiting.old → out.new ≡ out.old ++ events_of is_response s what.now) }
    ensures waiting { OnOk result ((s : Streams) → AreWaiting s waiting.old → AreWaiting (streams_after is_response s what.now) waiting.new) }
{
    match what {
        DriverLine::Opened(authority) => {
            out.push(DriverEvent::Opened(*authority))?;
            set_frames(waiting, *authority, Some(Frames::new(alloc)))?;
            Ok(())
        }
        DriverLine::Bytes { authority, bytes } => {
            add_data(alloc, *authority, bytes.as_slice(), waiting, out)
        }
        DriverLine::Lost(authority) => {
            out.push(DriverEvent::Lost(*authority))?;
            set_frames(waiting, *authority, None)?;
            Ok(())
        }
        DriverLine::Moment(time) => {
            out.push(DriverEvent::Moment(*time))?;
            Ok(())
        }
        DriverLine::Endpoint { address, state } => {
            let address = address.share()?;
            out.push(DriverEvent::Endpoint {
                address,
                state: *state,
            })?;
            Ok(())
        }
        DriverLine::Sweep => {
            out.push(DriverEvent::Sweep)?;
            Ok(())
        }
    }
}
