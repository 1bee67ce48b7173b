//! The law of the report of a history's first entries, the clause of a function without a body.
ghost use Rattle.front_law.specs.FrontLaw.{FrontIsReported};

/// What is written of the first entries of a right history, and of the snapshots that they published, begins the report of the
/// history.
#[tactic(auto, using(crate::proofs::FrontProofs::front_is_reported))]
pub fn front_is_reported()
    ensures { FrontIsReported }
{}
