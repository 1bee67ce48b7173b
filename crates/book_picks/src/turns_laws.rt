//! Entries that leave what is kept of picks.
ghost use Rattle.book_picks.specs.TurnsLaws.{CallersLeaveTurns, DriversLeaveTurns};

/// A caller's entry that isn't a pick leaves what is kept.
#[tactic(auto, using(crate::proofs::RenewedLemmas::callers_leave))]
pub fn callers_leave()
    ensures { CallersLeaveTurns }
{}

/// A driver's entry at which the configuration and what is served of its clusters stay leaves what is kept.
#[tactic(auto, using(crate::proofs::RenewedLemmas::drivers_leave))]
pub fn drivers_leave()
    ensures { DriversLeaveTurns }
{}
