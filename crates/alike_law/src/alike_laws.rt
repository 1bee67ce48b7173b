//! Laws of texts that have their first lines in common with the report of a history, each the clause of a function without a
//! body.
ghost use Rattle.alike_law.specs.AlikeTexts.{AlikeParts};
ghost use Rattle.alike_law.specs.FirstEntries.{FirstLinesStand, FrontIsWritten};

/// A text that goes as a history's report for so many lines is that report, or parts from it behind these.
#[tactic(auto, using(crate::proofs::PartingProofs::alike_parts))]
pub fn alike_parts()
    ensures { AlikeParts }
{}

/// What stands in a right history's report above its later entries is told by what is written of the first ones.
#[tactic(auto, using(crate::proofs::FirstEntryProofs::first_lines_stand))]
pub fn first_lines_stand()
    ensures { FirstLinesStand }
{}

/// What is written of a right history's first entries begins what is written of all.
#[tactic(auto, using(crate::proofs::FirstEntryProofs::front_is_written))]
pub fn front_is_written()
    ensures { FrontIsWritten }
{}
