//! Laws of legal histories and the plan of their session, each the clause of a function without a body.
ghost use Rattle.next_law.specs.NextLaw.{EndOfLegal, NextOfLegal};

/// Each entry of a legal history is the next one of its actor by the plan of the session, where the entries before it
/// stand.
#[tactic(auto, using(crate::proofs::NextProofs::next_of_legal))]
pub fn next_of_legal()
    ensures { NextOfLegal }
{}

/// Before the last sweep of a legal history each caller has ended all that is listed for it, and the driver all but the
/// sweep; after it all have ended all.
#[tactic(auto, using(crate::proofs::EndProofs::end_of_legal))]
pub fn end_of_legal()
    ensures { EndOfLegal }
{}
