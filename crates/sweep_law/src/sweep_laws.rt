//! Laws of the last sweep of a legal history, each the clause of a function without a body.
ghost use Rattle.sweep_law.specs.SweepLaw.{SweepIsLast, SweepIsListed, SweepStands};

/// Only the last entry of a legal history is of line 0.
#[tactic(auto, using(crate::proofs::LastProofs::sweep_is_last))]
pub fn sweep_is_last()
    ensures { SweepIsLast }
{}

/// Before the last sweep of a legal history the plan of the session lists it next for the driver.
#[tactic(auto, using(crate::proofs::SweepProofs::sweep_is_listed))]
pub fn sweep_is_listed()
    ensures { SweepIsListed }
{}

/// The last sweep of a legal history is the driver's and of line 0, and before it no actor has a pin up.
#[tactic(auto, using(crate::proofs::SweepProofs::sweep_stands))]
pub fn sweep_stands()
    ensures { SweepStands }
{}
