//! A frame of a payload.
ghost use Rattle.std.specs.Prelude.{◌≡◌, ◌++◌, ◌≤◌, length, OnOk, OnErr};
ghost use Rattle.grpc_framing.specs.Framing.{frame};

use std::alloc::Global;
use xc_base::{List, Memory};

/// Adds the frame of a payload of at most 4,294,967,295 bytes (gRPC over HTTP/2, Length-Prefixed-Message): the byte
/// 0, the length in four bytes with the high one first, and the payload. For want of memory nothing is added.
pub fn write_frame(alloc: Global, payload: &[u8], out: &mut List<u8>) -> Result<(), Memory>
    requires { length payload.now ≤ 4294967295 }
    ensures ok { OnOk result (out.new ≡ out.old ++ frame payload.now) }
    ensures err { OnErr result (out.new ≡ out.old) }
{
    let [a, b, c, d] = (payload.len() as u32).to_be_bytes();
    let mut frame = List::new(alloc);
    frame.extend_from_slice(&[0, a, b, c, d])?;
    frame.extend_from_slice(payload)?;
    out.extend_from_slice(frame.as_slice())
}
