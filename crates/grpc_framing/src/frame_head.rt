//! What stands first in bytes.
ghost use Rattle.std.specs.Prelude.{◌≡◌};
ghost use Rattle.grpc_framing.specs.Cut.{first_frame, sized_frame};
ghost use Rattle.grpc_framing.specs.Feeding.{answer_at};
ghost use Rattle.grpc_framing.specs.Framing.{fault_at, size_fault};
ghost use Rattle.grpc_framing.specs.Head.{first_of, frame_of, fault_of};

use crate::frame_fault::FrameFault;

/// The most bytes that a payload may have: 4 MiB, as gRPC's own clients receive at most.
pub(crate) const LONGEST_PAYLOAD: u32 = 4_194_304;

/// What stands first in bytes.
#[derive(Drop)]
pub(crate) enum Head<'a> {
    /// A frame: its payload, and the bytes after it.
    Frame(&'a [u8], &'a [u8]),
    /// The beginning of a frame, or nothing.
    Short,
    /// No frame.
    Fault(FrameFault),
}

/// What stands first in bytes: the flag, the length and the payload are read.
#[tactic(auto, unfolding(crate::specs::Cut::first_frame, crate::specs::Framing::fault_at))]
pub(crate) fn read_head(bytes: &[u8]) -> Head<'_>
    ensures frame { frame_of result ≡ first_frame bytes.now }
    ensures fault { fault_of result ≡ fault_at bytes.now }
{
    match bytes {
        [] => Head::Short,
        [0, sized @ ..] => read_size(sized),
        [_, ..] => Head::Fault(FrameFault::Compressed),
    }
}

/// What stands after the flag 0: the length, and the payload of that length.
fn read_size(bytes: &[u8]) -> Head<'_>
    ensures frame { frame_of result ≡ sized_frame bytes.now }
    ensures fault { fault_of result ≡ size_fault bytes.now }
{
    if bytes.len() < 4 {
        return Head::Short;
    }
    let (size, body) = bytes.split_at(4);
    let size = u32::from_be_bytes([size[0], size[1], size[2], size[3]]);
    if size > LONGEST_PAYLOAD {
        return Head::Fault(FrameFault::TooLong(size));
    }
    if body.len() < size as usize {
        return Head::Short;
    }
    let (payload, after) = body.split_at(size as usize);
    Head::Frame(payload, after)
}

/// The first frame's payload, and the bytes after the frame.
pub(crate) fn first_frame(bytes: &[u8]) -> Option<(&[u8], &[u8])>
    ensures { first_of result ≡ first_frame bytes.now }
{
    match read_head(bytes) {
        Head::Frame(payload, after) => Some((payload, after)),
        Head::Short => None,
        Head::Fault(_) => None,
    }
}

/// The fault of bytes after which no frame can follow, whatever bytes come next.
pub(crate) fn can_follow(bytes: &[u8]) -> Result<(), FrameFault>
    ensures { result ≡ answer_at (fault_at bytes.now) }
{
    match read_head(bytes) {
        Head::Frame(..) => Ok(()),
        Head::Short => Ok(()),
        Head::Fault(fault) => Err(fault),
    }
}
