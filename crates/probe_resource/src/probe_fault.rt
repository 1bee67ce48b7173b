//! Why nothing is shown.
ghost use Rattle.std.specs.Prelude.{◌≡◌};
ghost use Rattle.probe_resource.specs.declared.probe_fault.Fault.TheVariants.{Memory, Write};

use hex::FromHexError;
use std::alloc::{AllocError, AllocFailed};
use xc_base::{Failed, ReadFault};

/// Why a run gave no answer.
#[derive(Clone, Copy, PartialEq, Eq)]
pub enum Fault {
    /// The words aren't the one word `show` or `judge`.
    Words,
    /// The input failed.
    Read,
    /// The output failed.
    Write,
    /// A line isn't a resource.
    Line,
    /// There was no memory.
    Memory,
}

impl From<AllocError> for Fault {
    ghost from_gives = { λ _ fault. fault ≡ Memory };

    fn from(_: AllocError) -> Self {
        Fault::Memory
    }
}

impl<T: Drop> From<AllocFailed<T>> for Fault {
    ghost from_gives = { λ _ fault. fault ≡ Memory };

    fn from(_: AllocFailed<T>) -> Self {
        Fault::Memory
    }
}

impl From<ReadFault> for Fault {
    fn from(fault: ReadFault) -> Self {
        match fault {
            ReadFault::Failed => Fault::Read,
            ReadFault::Memory => Fault::Memory,
        }
    }
}

impl From<Failed> for Fault {
    ghost from_gives = { λ _ fault. fault ≡ Write };

    fn from(_: Failed) -> Self {
        Fault::Write
    }
}

impl From<FromHexError> for Fault {
    fn from(fault: FromHexError) -> Self {
        match fault {
            FromHexError::OutOfMemory => Fault::Memory,
            _ => Fault::Line,
        }
    }
}
