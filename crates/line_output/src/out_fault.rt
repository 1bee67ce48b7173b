//! Why a text wasn't written.
ghost use Rattle.std.specs.Prelude.{◌≡◌};
ghost use Rattle.line_output.specs.declared.out_fault.OutFault.TheVariants.{Memory, WriteFault};

use std::alloc::AllocError;
use xc_base::Failed;

/// Why a text wasn't written to its end.
#[derive(Clone, Copy, Debug, PartialEq, Eq)]
pub enum OutFault {
    /// The sink failed.
    WriteFault,
    /// There was no memory for a part of the text.
    Memory,
}

impl From<AllocError> for OutFault {
    ghost from_gives = { λ _ e. e ≡ Memory };

    fn from(_: AllocError) -> Self {
        OutFault::Memory
    }
}

impl From<Failed> for OutFault {
    ghost from_gives = { λ _ e. e ≡ WriteFault };

    fn from(_: Failed) -> Self {
        OutFault::WriteFault
    }
}
