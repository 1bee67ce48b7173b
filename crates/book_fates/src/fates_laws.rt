//! What the calls on fates ask for holds of a right history's entries.
ghost use Rattle.book_fates.specs.FatesKept.{AnsweredTurnsNone, CallersLeave, DriversSettle, QuietStays};

/// What `settle` asks for holds of a driver's entry.
pub fn drivers_settle()
    ensures { DriversSettle }
{}

/// A caller's entry leaves what is kept as it is.
#[tactic(auto, using(crate::proofs::PageLemmas::callers_leave))]
pub fn callers_leave()
    ensures { CallersLeave }
{}

/// An answered response turns no stream.
#[tactic(auto, using(crate::proofs::PageLemmas::answered_turns_none))]
pub fn answered_turns_none()
    ensures { AnsweredTurnsNone }
{}

/// An entry that brings nothing and turns no stream asks for no call before it is known what is reached.
pub fn quiet_stays()
    ensures { QuietStays }
{}
