//! Why a step isn't made.
use channel_calls::BookFault;
use std::alloc::{AllocError, AllocFailed};

/// Why a step isn't made.
#[derive(Clone, Copy, Debug, PartialEq, Eq)]
pub enum Halt {
    /// The lane isn't of the Book, the line that gates the step hasn't ended, or the Book takes no more entries.
    Strange,
    /// There was no memory.
    Memory,
}

impl From<AllocError> for Halt {
    ghost use Rattle.std.specs.Prelude.{◌≡◌};
    ghost use Rattle.turn_steps.specs.declared.halts.Halt.TheVariants.{Memory};

    ghost from_gives = { λ _ halt. halt ≡ Memory };

    fn from(_: AllocError) -> Halt {
        Halt::Memory
    }
}

impl<T: Drop> From<AllocFailed<T>> for Halt {
    ghost use Rattle.std.specs.Prelude.{◌≡◌};
    ghost use Rattle.turn_steps.specs.declared.halts.Halt.TheVariants.{Memory};

    ghost from_gives = { λ _ halt. halt ≡ Memory };

    fn from(_: AllocFailed<T>) -> Halt {
        Halt::Memory
    }
}

/// Want of memory comes of nothing else.
impl From<BookFault> for Halt {
    ghost use Rattle.std.specs.Prelude.{◌≡◌, ◌↔◌};
    ghost use Rattle.channel_calls.specs.xds_book.declared.book_faults.BookFault.TheVariants.{Memory as BookMemory};
    ghost use Rattle.turn_steps.specs.declared.halts.Halt.TheVariants.{Memory};

    ghost from_gives = { λ fault halt. (halt ≡ Memory) ↔ (fault ≡ BookMemory) };

    fn from(fault: BookFault) -> Halt {
        match fault {
            BookFault::Memory => Halt::Memory,
            BookFault::Ended | BookFault::Full => Halt::Strange,
        }
    }
}
