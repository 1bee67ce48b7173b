//! The law of sessions that are read, as the clause of a function without a body.
ghost use Rattle.session_shape.specs.SessionShape.{ReadIsWellFormed};

/// A session that bytes spell is well formed, where its authorities are those of a bootstrap.
#[tactic(auto, using(crate::proofs::ShapeProofs::read_is_well_formed))]
pub fn read_is_well_formed()
    ensures { ReadIsWellFormed }
{}
