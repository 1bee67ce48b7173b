//! The laws of the report, each the clause of a function without a body.
ghost use Rattle.text_law.specs.RefusedTexts.{RefusedAreTexts};
ghost use Rattle.text_law.specs.TextLaw.{OneText};

/// A session and the text of a report have at most one legal history.
#[tactic(auto, using(crate::proofs::LawProofs::one_text))]
pub fn one_text()
    ensures { OneText }
{}

/// The pattern texts that an entry of a right history tells as refused are UTF-8.
pub fn refused_are_texts()
    ensures { RefusedAreTexts }
{}
