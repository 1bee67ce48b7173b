//! The law of the pattern texts that a legal history's report lists, as the clause of a function without a body.
ghost use Rattle.listed_law.specs.ListedLaw.{ListedOfLegal};

/// What the lines behind the first one of an entry of a legal history list first are the pattern texts that the entry refused.
#[tactic(auto, using(crate::proofs::ListedProofs::listed_of_legal))]
pub fn listed_of_legal()
    ensures { ListedOfLegal }
{}
