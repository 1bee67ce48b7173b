//! Who builds patterns.
ghost use Rattle.std.specs.Prelude.{◌≡◌, IfOk};
ghost use Rattle.header_match.specs.Refused.{refused_after};

use crate::pattern::Pattern;
use std::alloc::AllocFailed;
use std::fmt;
use xc_base::Memory;

/// Why a pattern isn't built.
#[derive(Clone, Copy, Debug, PartialEq, Eq)]
pub enum PatternFault {
    /// The text is no pattern, or too large a one.
    Refused,
    /// There was no memory.
    Memory,
}

/// Who builds patterns. It keeps the list of the texts that it refused, in their order.
pub trait Patterns {
    ghost use Rattle.std.specs.Prelude.{List, ℕ};

    ghost refused: { Self → List (List ℕ) };

    /// The pattern of a text. Where it answers `Refused` it adds the text at the end of the refused
    /// ones, and else, also for want of memory, it adds nothing.
    fn build(&mut self, text: &str) -> Result<Pattern, PatternFault>
        ensures built { IfOk result (λ p. p ≡ text.now) }
        ensures refused { refused self.new ≡ refused_after (refused self.old) text.now result };
}

impl From<Memory> for PatternFault {
    ghost use Rattle.std.specs.Prelude.{◌≡◌};
    ghost use Rattle.header_match.specs.declared.patterns.PatternFault.TheVariants.{Memory};

    ghost from_gives = { λ _ fault. fault ≡ Memory };

    fn from(_: Memory) -> PatternFault {
        PatternFault::Memory
    }
}

impl<T: Drop> From<AllocFailed<T>> for PatternFault {
    ghost use Rattle.std.specs.Prelude.{◌≡◌};
    ghost use Rattle.header_match.specs.declared.patterns.PatternFault.TheVariants.{Memory};

    ghost from_gives = { λ _ fault. fault ≡ Memory };

    fn from(_: AllocFailed<T>) -> PatternFault {
        PatternFault::Memory
    }
}

/// An error of `regex` other than want of memory refuses the text.
impl From<regex::Error> for PatternFault {
    ghost use Rattle.std.specs.Prelude.{◌≡◌, ◌↔◌};
    ghost use Rattle.regex.specs.declared.error.Error.TheVariants.{OutOfMemory};
    ghost use Rattle.header_match.specs.declared.patterns.PatternFault.TheVariants.{Memory};

    ghost from_gives = { λ error fault. (fault ≡ Memory) ↔ (error ≡ OutOfMemory) };

    fn from(error: regex::Error) -> PatternFault {
        match error {
            regex::Error::OutOfMemory => PatternFault::Memory,
            _ => PatternFault::Refused,
        }
    }
}

impl fmt::Display for PatternFault {
    fn fmt<W: fmt::Write>(&self, f: &mut fmt::Formatter<W>) -> fmt::Result {
        match self {
            PatternFault::Refused => write!(f, "the pattern is refused"),
            PatternFault::Memory => write!(f, "out of memory"),
        }
    }
}

impl std::error::Error for PatternFault {}
