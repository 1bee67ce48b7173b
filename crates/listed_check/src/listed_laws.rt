//! Laws of prepared responses, each the clause of a function without a body.
ghost use Rattle.listed_check.specs.ListedAnswers.{OnePrepared};

/// A payload and the texts that were refused decide what was prepared.
#[tactic(auto, using(crate::proofs::ListedLemmas::one_prepared))]
pub fn one_prepared()
    ensures { OnePrepared }
{}
