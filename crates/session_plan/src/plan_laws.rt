//! Laws of the plan of a session, each the clause of a function without a body.
ghost use Rattle.session_plan.specs.ComingFrames.{StreamIsListed};
ghost use Rattle.session_plan.specs.PlanLaws.{EndedListIsPlayed, EndedPlanIsListed, PlanIsListed};

/// Entries of each actor that are the events of its list in the plan, all of them, are those that the session
/// lists.
pub fn plan_is_listed()
    ensures { PlanIsListed }
{}

/// Where all events of an actor's list have ended and no pin is up, its entries are the events of its list.
#[tactic(auto, using(crate::proofs::LawProofs::ended_list_is_played))]
pub fn ended_list_is_played()
    ensures { EndedListIsPlayed }
{}

/// Where each actor has come to the end of its list and no pin is up, the history is of what the session lists.
pub fn ended_plan_is_listed()
    ensures { EndedPlanIsListed }
{}

/// The driver's listed events on the stream of an authority follow from the lines that speak of this authority:
/// no other stream has a part in them.
pub fn stream_is_listed()
    ensures { StreamIsListed }
{}
