//! Frames of bytes that come in pieces.
ghost use Rattle.std.specs.Prelude.{◌≡◌, ◌≤◌, ◌⊎◌, ◌↔◌, ◌++◌, [], length, take, drop, OnOk, OnErr, IfOk, IsSome};
ghost use Rattle.grpc_framing.specs.Cut.{cut};
ghost use Rattle.grpc_framing.specs.Feeding.{answer_to, added_by, left_by};
ghost use Rattle.grpc_framing.specs.Framing.{fault_at};

use crate::frame_fault::FrameFault;
use crate::frame_head::{can_follow, first_frame};
use std::alloc::Global;
use std::marker::Model;
use xc_base::{List, Memory};

/// Adds the payloads of the frames that bytes begin with, and gives how many bytes these frames have. For want of
/// memory some payloads may have been added.
fn take_frames(alloc: Global, bytes: &[u8], out: &mut List<List<u8>>) -> Result<usize, Memory>
    ensures within { IfOk result (λ taken. taken ≤ length bytes.now) }
    ensures payloads { OnOk result (out.new ≡ out.old ++ (cut bytes.now).payloads) }
    ensures rest { IfOk result (λ taken. drop taken bytes.now ≡ (cut bytes.now).rest) }
    ensures err { OnErr result (take (length out.old) out.new ≡ out.old) }
{
    let mut rest = bytes;
    while let Some((payload, after)) = first_frame(rest) {
        out.push(List::from_vec(payload.to_vec(alloc)?))?;
        rest = after;
    }
    Ok(bytes.len() - rest.len())
}

/// The bytes that came after the last frame that is complete (gRPC over HTTP/2, Length-Prefixed-Message).
/// Contracts see it as these bytes.
#[derive(Drop)]
pub struct Frames {
    waiting: Vec<u8>,
}

impl Model for Frames {
    ghost use Rattle.std.specs.Prelude.{List, ℕ};

    ghost Value = { List ℕ };

    ghost view = { λ f. f.waiting.items };
}

impl Frames {
    /// No bytes. It takes no memory.
    pub fn new(alloc: Global) -> Frames
        ensures { result ≡ [] }
    {
        Frames {
            waiting: Vec::new(alloc),
        }
    }

    /// Adds the payloads of the frames that the piece completes, in their order. Where no frame can follow, it
    /// answers `Compressed` or `TooLong`, and every later call answers `Ended` and changes nothing. For want of
    /// memory nothing changes.
    pub fn feed(&mut self, piece: &[u8], out: &mut List<List<u8>>) -> Result<(), FrameFault>
        ensures answer { (result ≡ Err FrameFault.Memory) ⊎ (result ≡ answer_to self.old piece.now) }
        ensures ended { (result ≡ Err FrameFault.Ended) ↔ IsSome (fault_at self.old) }
        ensures payloads { out.new ≡ out.old ++ added_by result self.old piece.now }
        ensures waiting { self.new ≡ left_by result self.old piece.now }
    {
        if can_follow(&self.waiting).is_err() {
            return Err(FrameFault::Ended);
        }
        let before = self.waiting.len();
        let count = out.len();
        self.waiting.extend_from_slice(piece)?;
        match take_frames(*self.waiting.allocator(), &self.waiting, out) {
            Ok(taken) => {
                // Bytes that wait stay where they are until their frame is complete. What is left then is
                // no more than the piece.
                self.waiting.drain(..taken);
                can_follow(&self.waiting)
            }
            Err(_) => {
                self.waiting.truncate(before);
                out.truncate(count);
                Err(FrameFault::Memory)
            }
        }
    }
}
