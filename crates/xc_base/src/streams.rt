//! Reading a source to its end, and writing a whole text to a sink.
ghost use Rattle.std.specs.Prelude.{◌≡◌, ◌≤◌, ◌+◌, take, IfOk, IfSome, OnOk, OnErr, IsErrOf};
ghost use Rattle.std.specs.Io.KnownBytes.{Appends};
ghost use Rattle.xc_base.specs.Causes.{HasCause, Rose};
ghost use Rattle.xc_base.specs.Outside.{AppendsPrefix};
ghost use Rattle.xc_base.specs.declared.streams.ReadFault.TheVariants.{Memory};

use crate::outside::{Failed, Sink, Source};
use std::alloc::{AllocError, Global};

/// Writes all bytes of the text, in as many calls as the sink takes. After a fault a prefix of it is written.
/// It fails only where the sink failed, which its count of faults tells.
pub fn write_all<K: Sink>(sink: &mut K, text: &[u8]) -> Result<(), Failed>
    ensures ok { OnOk result (Appends (K.held sink.old) (K.held sink.new) text.now) }
    ensures prefix { OnErr result (AppendsPrefix (K.held sink.old) (K.held sink.new) text.now) }
    ensures cause { HasCause (K.faults sink.old) (K.faults sink.new) result }
{
    let mut at = 0;
    while at < text.len() {
        match sink.write(&text[at..]) {
            Ok(n) => at += n,
            Err(e) => return Err(e),
        }
    }
    Ok(())
}

/// Why a source wasn't read to its end.
#[derive(Clone, Copy, PartialEq, Eq)]
pub enum ReadFault {
    /// The source failed.
    Failed,
    /// There was no memory.
    Memory,
}

impl From<AllocError> for ReadFault {
    ghost from_gives = { λ _ e. e ≡ Memory };

    fn from(_: AllocError) -> Self {
        ReadFault::Memory
    }
}

/// Reads to the end, or the first `most` bytes where there are more. `Failed` comes only where the source's
/// count of faults rose, and `Memory` where the bytes had no room.
pub fn read_all<S: Source>(alloc: Global, source: &mut S, most: u32) -> Result<Vec<u8>, ReadFault>
    ensures bytes { IfOk result (λ v. IfSome (S.left source.old) (λ left. v.items ≡ take most left)) }
    ensures later { S.faults source.old ≤ S.faults source.new }
    ensures failed { IsErrOf result ReadFault.Failed → Rose (S.faults source.old) (S.faults source.new) }
{
    let mut bytes = Vec::new(alloc);
    let mut buf = [0u8; 4096];
    for turn in 0..most {
        let _ = turn;
        let room = (most as usize - bytes.len()).min(buf.len());
        match source.read(&mut buf[..room]) {
            Ok(0) => return Ok(bytes),
            Ok(n) => bytes.extend_from_slice(&buf[..n])?,
            Err(_) => return Err(ReadFault::Failed),
        }
        if bytes.len() >= most as usize {
            return Ok(bytes);
        }
    }
    Ok(bytes)
}
