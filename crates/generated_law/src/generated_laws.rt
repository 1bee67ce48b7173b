//! The law of the generated session, as the clause of a function without a body.
ghost use Rattle.generated_law.specs.GeneratedLaw.{GeneratedSpells};

/// The text of the generated session of at most 1,000 rounds spells the session that it lists.
#[tactic(auto, using(crate::proofs::GeneratedProofs::generated_spells))]
pub fn generated_spells()
    ensures { GeneratedSpells }
{}
