//! Why nothing is shown.
ghost use Rattle.std.specs.Prelude.{◌≡◌};
ghost use Rattle.probe_discovery.specs.declared.show_fault.Fault.TheVariants.{Memory, Write};

use proto_wire::WireFault;
use std::alloc::{AllocError, AllocFailed};
use xc_base::{Failed, ReadFault};

/// Why a run gave no answer.
#[derive(Clone, Copy, Debug)]
pub enum Fault {
    /// The words aren't the one word `response` or `request`.
    Words,
    /// The input failed, or is too long.
    Read,
    /// The output failed.
    Write,
    /// The bytes aren't a response, from this place on.
    Unreadable(u32),
    /// The type URL is none of the four kinds'.
    Kind,
    /// There was no memory.
    Memory,
}

impl From<AllocError> for Fault {
    ghost from_gives = { λ _ fault. fault ≡ Memory };

    fn from(_: AllocError) -> Self {
        Fault::Memory
    }
}

impl<T: Drop> From<AllocFailed<T>> for Fault {
    ghost from_gives = { λ _ fault. fault ≡ Memory };

    fn from(_: AllocFailed<T>) -> Self {
        Fault::Memory
    }
}

impl From<ReadFault> for Fault {
    fn from(fault: ReadFault) -> Self {
        match fault {
            ReadFault::Failed => Fault::Read,
            ReadFault::Memory => Fault::Memory,
        }
    }
}

impl From<Failed> for Fault {
    ghost from_gives = { λ _ fault. fault ≡ Write };

    fn from(_: Failed) -> Self {
        Fault::Write
    }
}

impl From<WireFault> for Fault {
    fn from(fault: WireFault) -> Self {
        match fault {
            WireFault::At(at) => Fault::Unreadable(at),
            WireFault::Memory => Fault::Memory,
        }
    }
}
