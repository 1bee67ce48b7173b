//! Steps that several tables of checks share.
ghost use Rattle.std.specs.Prelude.{◌<◌, ◌≤◌, ◌^◌, OnErr, OnOk};
ghost use Rattle.check_steps.specs.TableSteps.{Tells, demand, readable};

use crate::check_fault::Fault;
use proto_wire::{Message, WireFault};
use std::alloc::{AllocError, Global};
use xc_base::{Memory, Reason};

/// Messages have fewer bytes.
pub const MOST_BYTES: usize = 1 << 32;

/// The test holds, else the checks stop for the reason.
pub fn demand(test: bool, reason: Reason) -> Result<(), Fault>
    ensures { Tells result (demand test reason) }
{
    if test {
        Ok(())
    } else {
        Err(Fault::because(reason))
    }
}

/// The message that the bytes are.
pub fn read<M: Message + Drop>(alloc: Global, bytes: &[u8]) -> Result<M, Fault>
    ensures { Tells result (readable (M.reading bytes.now)) }
{
    if bytes.len() >= MOST_BYTES {
        return Err(Fault::Memory);
    }
    match M::read(alloc, bytes) {
        Ok(message) => Ok(message),
        Err(WireFault::At(_)) => Err(Fault::because(Reason::Unreadable)),
        Err(WireFault::Memory) => Err(Fault::Memory),
    }
}

/// Lists whose members a u32 names have fewer than 2^31 members.
pub fn few(count: usize) -> Result<(), Memory>
    ensures few { OnOk result (count < 2 ^ 31) }
    ensures many { OnErr result (2 ^ 31 ≤ count) }
{
    if count < 1 << 31 {
        Ok(())
    } else {
        Err(AllocError)
    }
}
