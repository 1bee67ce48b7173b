//! Laws of what fixes an entry over a past, each the clause of a function without a body.
ghost use Rattle.entry_law.specs.EntryLaw.{NextIsOne, OneEntry, OneNextStep};

/// Where an actor has come so far, a plan lists one line and one step next.
#[tactic(auto, using(crate::proofs::StepProofs::one_next_step))]
pub fn one_next_step()
    ensures { OneNextStep }
{}

/// Two right entries over one past are the same where their actor, line, step and refused pattern texts are.
#[tactic(auto, using(crate::proofs::EntryProofs::one_entry))]
pub fn one_entry()
    ensures { OneEntry }
{}

/// A right entry over the past of an entry of a legal history is that entry, where it is the next one of the same actor by
/// the plan of the session and the same pattern texts are refused.
#[tactic(auto, using(crate::proofs::EntryProofs::next_is_one))]
pub fn next_is_one()
    ensures { NextIsOne }
{}
