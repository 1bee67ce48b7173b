//! Why bytes are no bootstrap.
ghost use Rattle.std.specs.Prelude.{◌≡◌};
ghost use Rattle.xds_bootstrap.specs.declared.boot_fault.BootFault.TheVariants as Fault;

use std::alloc::{AllocError, AllocFailed};
use thiserror::Error;
use xc_base::Text;

/// Why bytes are no bootstrap: the first fault in the order in which the members are read.
#[derive(Clone, Debug, Drop, PartialEq, Eq, Error)]
pub enum BootFault {
    /// They aren't UTF-8, no JSON document, or one that isn't an object.
    #[error("not a JSON object")]
    NotJson,
    /// The member of this name is missing.
    #[error("no {0}")]
    Missing(Text),
    /// The member of this name is of another kind than it has to be.
    #[error("a wrong {0}")]
    WrongKind(Text),
    /// There was no memory.
    #[error("out of memory")]
    Memory,
}

impl From<AllocError> for BootFault {
    ghost from_gives = { λ _ e. e ≡ Fault.Memory };

    fn from(_: AllocError) -> Self {
        BootFault::Memory
    }
}

impl<T: Drop> From<AllocFailed<T>> for BootFault {
    ghost from_gives = { λ _ e. e ≡ Fault.Memory };

    fn from(_: AllocFailed<T>) -> Self {
        BootFault::Memory
    }
}
