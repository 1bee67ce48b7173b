//! Laws of plans and legal histories, each the clause of a function without a body.
ghost use Rattle.legal_plan.specs.PlanLegality.{EndedPlanIsLegal, PlaysAreStarted};

/// Of entries that play a list of the plan a hold follows a pin exactly where the pin got a snapshot.
pub fn plays_are_started()
    ensures { PlaysAreStarted }
{}

/// A right history in which each actor has come to the end of its list of the plan, each entry stands after its
/// gate and the last sweep ends, is a legal history of the session.
pub fn ended_plan_is_legal()
    ensures { EndedPlanIsLegal }
{}
