//! The law of entries that are made where a report is judged, as the clause of a function without a body.
ghost use Rattle.replay_law.specs.ReplayLaw.{ReplayedIsOne};

/// An entry that is made in the turn of an entry of a legal history, as that history's report says, is that very entry.
pub fn replayed_is_one()
    ensures { ReplayedIsOne }
{}
