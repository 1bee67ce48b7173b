//! The law of legal histories, as the clause of a function without a body.
ghost use Rattle.legal_history.specs.LegalLaws.{FewEntries};

/// A legal history of a session has at most as many entries as `room` of `session_script` counts.
#[tactic(auto, using(crate::proofs::LegalProofs::few))]
pub fn few_entries()
    ensures { FewEntries }
{}
