//! Laws of how what has been played of a session's plan is played on, each the clause of a function without a body.
ghost use Rattle.completion_law.specs.CompletionLaw.{AlwaysGoesOn, EachHasLegalHistory, LegalSoFarBeginsLegal};

/// Entries that play the plan of a session can be played on, where none of them is the last sweep: an actor has a step next
/// that is of a line of the session, or the last sweep is next and all else is played.
#[tactic(auto, using(crate::proofs::SweepNext::always_goes_on))]
pub fn always_goes_on()
    ensures { AlwaysGoesOn }
{}

/// A legal history of a session begins with right entries that play its plan, where none of them is the last sweep.
#[tactic(auto, using(crate::proofs::CompletionProofs::legal_so_far_begins_legal))]
pub fn legal_so_far_begins_legal()
    ensures { LegalSoFarBeginsLegal }
{}

/// Each session whose lines are well formed has a legal history. So what is promised of a session's legal histories is said of
/// one at least.
#[tactic(auto, using(crate::proofs::CompletionProofs::each_has_legal_history))]
pub fn each_has_legal_history()
    ensures { EachHasLegalHistory }
{}
