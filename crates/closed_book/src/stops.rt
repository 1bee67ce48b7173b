//! Why what was played isn't reported.
use xc_base::Memory;

/// Why what was played isn't reported.
#[derive(Clone, Copy, PartialEq, Eq)]
pub enum Stop {
    /// A lane isn't of the Book, its refused texts aren't those of the journal, or not all that is listed was played.
    Strange,
    /// There was no memory.
    Memory,
}

impl From<Memory> for Stop {
    ghost use Rattle.std.specs.Prelude.{◌≡◌};
    ghost use Rattle.closed_book.specs.declared.stops.Stop.TheVariants.{Memory as NoMemory};

    ghost from_gives = { λ _ stop. stop ≡ NoMemory };

    fn from(_: Memory) -> Stop {
        Stop::Memory
    }
}
