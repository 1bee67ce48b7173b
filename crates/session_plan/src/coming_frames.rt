//! The events of a data line.
ghost use Rattle.std.specs.Prelude.{◌≡◌, ◌&&◌, if◌then◌else◌, ◌++◌, List, [], ◌∷◌, ℕ, map, All, Option, IfOk, OnOk, None, Err};
ghost use Rattle.std.specs.List.{list_all};
ghost use Rattle.grpc_framing.specs.Cut.{cut};
ghost use Rattle.grpc_framing.specs.Framing.{fault_at};
ghost use Rattle.grpc_framing.specs.declared.frame_fault.FrameFault.TheVariants.{Memory};
ghost use Rattle.call_journal.specs.declared.event.DriverEvent.{DriverEvent};
ghost use Rattle.session_script.specs.Plan.{came_after, data_events, ended_in, how_of, played_of, up_after};
ghost use Rattle.session_plan.specs.ComingFrames.{IsWaiting, bytes_how};
ghost use Rattle.session_plan.specs.ReadablePayloads.{IsShort, is_response};

use crate::readable_payloads::is_response;
use call_journal::{BytesHow, DriverEvent};
use grpc_framing::{FrameFault, Frames};
use std::alloc::{AllocError, Global};
use xc_base::{Authority, List, Memory, Shared};

/// Adds the response of one payload, where all before it can be read, and tells whether this one can be, too.
fn respond_one(
    alloc: Global,
    authority: Authority,
    all: bool,
    payload: List<u8>,
    out: &mut List<DriverEvent>,
) -> Result<bool, Memory>
    requires { IsShort payload }
    ensures all { IfOk result (λ now. now ≡ (all && is_response payload)) }
    ensures events { OnOk result (out.new ≡ out.old ++ (if all then DriverEvent.Response authority payload ∷ [] else [])) }
{
    if !all {
        return Ok(false);
    }
    let reads = is_response(alloc, payload.as_slice())?;
    let payload = Shared::new(alloc, payload)?;
    out.push(DriverEvent::Response { authority, payload })?;
    Ok(reads)
}

/// Adds the responses up to the first that can't be read, and tells whether there is none such.
fn respond(
    alloc: Global,
    authority: Authority,
    payloads: List<List<u8>>,
    out: &mut List<DriverEvent>,
) -> Result<bool, Memory>
    requires { All IsShort payloads }
    ensures all { IfOk result (λ all. all ≡ list_all is_response payloads) }
    ensures events { OnOk result (out.new ≡ out.old ++ map (DriverEvent.Response authority) (played_of is_response payloads)) }
{
    let mut all = true;
    for payload in payloads.into_vec() {
        all = respond_one(alloc, authority, all, payload, out)?;
    }
    Ok(all)
}

/// What became of the bytes, by whether all responses in them can be read and by the framing's answer.
fn bytes_how(all: bool, answer: Result<(), FrameFault>) -> Result<BytesHow, Memory>
    ensures how { IfOk result (λ how. how ≡ bytes_how all answer) }
    ensures memory { IfOk result (λ how. answer ≡ Err Memory → ⊥) }
{
    match answer {
        Err(FrameFault::Memory) => Err(AllocError),
        Ok(()) => Ok(if all {
            BytesHow::Whole
        } else {
            BytesHow::Ended
        }),
        Err(FrameFault::Compressed) => Ok(if all {
            BytesHow::Compressed
        } else {
            BytesHow::Ended
        }),
        Err(FrameFault::TooLong(size)) => Ok(if all {
            BytesHow::TooLong(size)
        } else {
            BytesHow::Ended
        }),
        Err(FrameFault::Ended) => Ok(BytesHow::Ended),
    }
}

/// Takes bytes on a stream that is up: adds the responses, and tells what became of the bytes.
fn take(
    alloc: Global,
    authority: Authority,
    bytes: &[u8],
    frames: &mut Frames,
    out: &mut List<DriverEvent>,
) -> Result<BytesHow, Memory>
    ensures how { IfOk result (λ how. (before : List ℕ) → frames.old ≡ (cut before).rest → fault_at frames.old ≡ None → how ≡ how_of is_response before bytes.now) }
    ensures events { OnOk result ((before : List ℕ) → frames.old ≡ (cut before).rest → fault_at frames.old ≡ None
        → out.new ≡ out.old ++ map (DriverEvent.Response authority) (played_of is_response (ended_in before bytes.now))) }
    ensures waiting { OnOk result ((before : List ℕ) → frames.old ≡ (cut before).rest → fault_at frames.old ≡ None → frames.new ≡ (cut (before ++ bytes.now)).rest) }
{
    let mut payloads = List::new(alloc);
    let answer = frames.feed(bytes, &mut payloads);
    let all = respond(alloc, authority, payloads, out)?;
    let how = bytes_how(all, answer)?;
    Ok(how)
}

/// The frames of a stream after bytes came on it: one whose bytes didn't come whole is down.
fn frames_after(how: BytesHow, frames: Frames) -> Option<Frames>
    ensures { result ≡ up_after how frames }
{
    match how {
        BytesHow::Whole => Some(frames),
        BytesHow::Closed | BytesHow::Compressed | BytesHow::TooLong(_) | BytesHow::Ended => None,
    }
}

/// Adds the events of a data line, and leaves what waits on the stream after it. On `Err` these are anything.
pub(crate) fn data_line(
    alloc: Global,
    authority: Authority,
    bytes: &[u8],
    waiting: &mut Option<Frames>,
    out: &mut List<DriverEvent>,
) -> Result<(), Memory>
    ensures events { OnOk result ((came : Option (List ℕ)) → IsWaiting came waiting.old → out.new ≡ out.old ++ data_events is_response authority came bytes.now) }
    ensures waiting { OnOk result ((came : Option (List ℕ)) → IsWaiting came waiting.old → IsWaiting (came_after is_response came bytes.now) waiting.new) }
{
    match waiting.take() {
        None => {
            let how = BytesHow::Closed;
            out.push(DriverEvent::Bytes { authority, how })?;
            Ok(())
        }
        Some(frames) => {
            let mut frames = frames;
            let how = take(alloc, authority, bytes, &mut frames, out)?;
            out.push(DriverEvent::Bytes { authority, how })?;
            *waiting = frames_after(how, frames);
            Ok(())
        }
    }
}
