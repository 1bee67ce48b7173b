//! The laws of what is read from a report, each the clause of a function without a body.
ghost use Rattle.turn_law.specs.LinesBehind.{EntriesInTurn};
ghost use Rattle.turn_law.specs.TurnLaw.{LegalAreTurns, TurnsOfReport};

/// The entries of a history are read from its report one after another. The lines behind the first one of each begin with those
/// of the patterns that it tells as refused.
pub fn entries_in_turn()
    ensures { EntriesInTurn }
{}

/// The turns that are read from the report of a history are those of its entries, in their order.
#[tactic(auto, using(crate::proofs::TurnProofs::turns_of_report))]
pub fn turns_of_report()
    ensures { TurnsOfReport }
{}

/// The entries of a legal history of a session that bytes spell are turns, so they are what is read from its report.
#[tactic(auto, using(crate::proofs::PlayedTurns::legal_are_turns))]
pub fn legal_are_turns()
    ensures { LegalAreTurns }
{}
