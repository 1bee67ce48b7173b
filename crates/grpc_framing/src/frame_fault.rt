//! Why no frame follows.
ghost use Rattle.std.specs.Prelude.{◌≡◌};
ghost use Rattle.grpc_framing.specs.declared.frame_fault.FrameFault.TheVariants.{Memory};

use std::alloc::{AllocError, AllocFailed};
use thiserror::Error;

/// Why a piece gave no further frames.
#[derive(Clone, Copy, Debug, PartialEq, Eq, Error)]
pub enum FrameFault {
    /// A frame begins with another byte than 0, so its message is compressed, or it is no frame.
    #[error("a compressed message")]
    Compressed,
    /// A frame has a length above 4,194,304 bytes: this one.
    #[error("a message of {0} bytes")]
    TooLong(u32),
    /// There was a fault before.
    #[error("the stream ended at a fault")]
    Ended,
    /// There was no memory. The piece was not taken.
    #[error("out of memory")]
    Memory,
}

impl From<AllocError> for FrameFault {
    ghost from_gives = { λ _ e. e ≡ Memory };

    fn from(_: AllocError) -> Self {
        FrameFault::Memory
    }
}

impl<T: Drop> From<AllocFailed<T>> for FrameFault {
    ghost from_gives = { λ _ e. e ≡ Memory };

    fn from(_: AllocFailed<T>) -> Self {
        FrameFault::Memory
    }
}
