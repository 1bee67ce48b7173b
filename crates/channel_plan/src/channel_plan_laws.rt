//! Laws of the plan of a session, each the clause of a function without a body.
ghost use Rattle.channel_plan.specs.ChannelPlanLaws.{GatesAreOpen, PlanIsForAChannel};

/// A channel plays the plan of a session: there is room for its entries, each call is started at most once, and a Book takes
/// the events of the driver.
pub fn plan_is_for_a_channel()
    ensures { PlanIsForAChannel }
{}

/// In a right history that plays the plan of a session each entry stands after the line that gates its own.
pub fn gates_are_open()
    ensures { GatesAreOpen }
{}
