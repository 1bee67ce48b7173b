//! Why a cluster has no leaves.
ghost use Rattle.std.specs.Prelude.{◌≡◌};
ghost use Rattle.aggregate_expand.specs.declared.expand_fault.ExpandFault.TheVariants.{Memory};

use std::alloc::{AllocError, AllocFailed};
use thiserror::Error;

/// Why a cluster has no leaves.
#[derive(Clone, Copy, Debug, PartialEq, Eq, Error)]
pub enum ExpandFault {
    /// A chain of 17 clusters begins with it.
    #[error("a chain of more than 16 clusters")]
    Depth,
    /// There was no memory.
    #[error("out of memory")]
    Memory,
}

impl From<AllocError> for ExpandFault {
    ghost from_gives = { λ _ e. e ≡ Memory };

    fn from(_: AllocError) -> Self {
        ExpandFault::Memory
    }
}

impl<T: Drop> From<AllocFailed<T>> for ExpandFault {
    ghost from_gives = { λ _ e. e ≡ Memory };

    fn from(_: AllocFailed<T>) -> Self {
        ExpandFault::Memory
    }
}
