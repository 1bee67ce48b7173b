//! Why a resource is refused.
use std::alloc::AllocFailed;
use xc_base::{Memory, Reason, Text};

/// Where the checks of a resource stop.
#[derive(Drop)]
pub enum Stop {
    /// At a step that fails for the reason.
    Because(Reason),
    /// At a pattern whose text is refused.
    Refused(Text),
}

/// Why a step of the checks gives nothing.
#[derive(Drop)]
pub enum Fault {
    /// The checks stop.
    Stopped(Stop),
    /// There was no memory.
    Memory,
}

impl Fault {
    ghost use Rattle.std.specs.Prelude.{◌≡◌};
    ghost use Rattle.check_steps.specs.declared.check_fault.Fault.TheVariants.{Stopped};
    ghost use Rattle.check_steps.specs.declared.check_fault.Stop.TheVariants.{Because};

    /// The checks stop for the reason.
    pub fn because(reason: Reason) -> Fault
        ensures { result ≡ Stopped (Because reason) }
    {
        Fault::Stopped(Stop::Because(reason))
    }
}

impl From<Memory> for Fault {
    ghost use Rattle.std.specs.Prelude.{◌≡◌};
    ghost use Rattle.check_steps.specs.declared.check_fault.Fault.TheVariants.{Memory};

    ghost from_gives = { λ _ fault. fault ≡ Memory };

    fn from(_: Memory) -> Fault {
        Fault::Memory
    }
}

impl<T: Drop> From<AllocFailed<T>> for Fault {
    ghost use Rattle.std.specs.Prelude.{◌≡◌};
    ghost use Rattle.check_steps.specs.declared.check_fault.Fault.TheVariants.{Memory};

    ghost from_gives = { λ _ fault. fault ≡ Memory };

    fn from(_: AllocFailed<T>) -> Fault {
        Fault::Memory
    }
}

/// A resource that is refused: its name, where one is known, and where its checks stop.
#[derive(Drop)]
pub struct Refusal {
    pub name: Option<Text>,
    pub stop: Stop,
}

/// Why a resource gives no value.
#[derive(Drop)]
pub enum Halt {
    /// It is refused.
    Refused(Refusal),
    /// There was no memory.
    Memory,
}

impl From<Memory> for Halt {
    ghost use Rattle.std.specs.Prelude.{◌≡◌};
    ghost use Rattle.check_steps.specs.declared.check_fault.Halt.TheVariants as variant;

    ghost from_gives = { λ _ halt. halt ≡ variant.Memory };

    fn from(_: Memory) -> Halt {
        Halt::Memory
    }
}

/// Why a resource isn't accepted.
#[derive(Debug, Drop, PartialEq, Eq)]
pub enum CheckFault {
    /// It is refused, under its name where one is known.
    Refused { name: Option<Text>, reason: Reason },
    /// There was no memory.
    Memory,
}
