//! The law of what is found in a report, as the clause of a function without a body.
ghost use Rattle.report_turns.specs.TurnLines.{FoundInTurn};

/// All that is found in lines is what is found next in them, and then all that is found in the lines behind it.
#[tactic(auto, using(crate::proofs::TurnLemmas::found_in_turn))]
pub fn found_in_turn()
    ensures { FoundInTurn }
{}
