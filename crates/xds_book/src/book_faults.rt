//! Why a step isn't made.
ghost use Rattle.std.specs.Prelude.{◌≡◌};
ghost use Rattle.xds_book.specs.declared.book_faults.BookFault.TheVariants.{Memory};

use std::alloc::{AllocError, AllocFailed};

/// Why a step isn't made, tried in this order.
#[derive(Clone, Copy, Debug, PartialEq, Eq)]
pub enum BookFault {
    /// An earlier step of the driver found no memory.
    Ended,
    /// The journal has 1,048,576 entries, and takes no more.
    Full,
    /// There was no memory.
    Memory,
}

impl From<AllocError> for BookFault {
    ghost from_gives = { λ _ e. e ≡ Memory };

    fn from(_: AllocError) -> Self {
        BookFault::Memory
    }
}

impl<T: Drop> From<AllocFailed<T>> for BookFault {
    ghost from_gives = { λ _ e. e ≡ Memory };

    fn from(_: AllocFailed<T>) -> Self {
        BookFault::Memory
    }
}
