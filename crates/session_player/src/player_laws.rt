//! The law of sessions that are played in the order of the file, as the clause of a function without a body.
ghost use Rattle.session_player.specs.PlayerLaws.{EndIsLegal};

/// A right history in which all lines and the last sweep have been played is a legal history of the session.
#[tactic(auto, using(crate::proofs::EndLemmas::end_is_legal))]
pub fn end_is_legal()
    ensures { EndIsLegal }
{}
