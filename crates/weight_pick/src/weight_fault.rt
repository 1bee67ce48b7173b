//! Why weights are refused.
use std::alloc::AllocFailed;
use std::fmt;
use xc_base::Memory;

/// Why weights can't be cumulated.
#[derive(Clone, Copy, Debug, PartialEq, Eq)]
pub enum WeightFault {
    /// Their sum is 0 or above 4,294,967,295.
    OutOfRange,
    /// There was no memory.
    Memory,
}

impl From<Memory> for WeightFault {
    ghost use Rattle.std.specs.Prelude.{◌≡◌};
    ghost use Rattle.weight_pick.specs.declared.weight_fault.WeightFault.TheVariants.{Memory};

    ghost from_gives = { λ _ fault. fault ≡ Memory };

    fn from(_: Memory) -> WeightFault {
        WeightFault::Memory
    }
}

impl<T: Drop> From<AllocFailed<T>> for WeightFault {
    ghost use Rattle.std.specs.Prelude.{◌≡◌};
    ghost use Rattle.weight_pick.specs.declared.weight_fault.WeightFault.TheVariants.{Memory};

    ghost from_gives = { λ _ fault. fault ≡ Memory };

    fn from(_: AllocFailed<T>) -> WeightFault {
        WeightFault::Memory
    }
}

impl fmt::Display for WeightFault {
    fn fmt<W: fmt::Write>(&self, f: &mut fmt::Formatter<W>) -> fmt::Result {
        match self {
            WeightFault::OutOfRange => write!(f, "the sum of the weights is out of range"),
            WeightFault::Memory => write!(f, "out of memory"),
        }
    }
}

impl std::error::Error for WeightFault {}
