//! Laws of the next step of an actor, each the clause of a function without a body.
ghost use Rattle.planned_calls.specs.PlannedCalls.{NextHasRoom, NextHoldIsUp, NextStartIsNew};

/// A call whose start comes next has no pin and holds nothing, where the plan starts each call at most once.
pub fn next_start_is_new()
    ensures { NextStartIsNew }
{}

/// A call whose hold comes next has its pin up, where the plan starts each call at most once.
pub fn next_hold_is_up()
    ensures { NextHoldIsUp }
{}

/// Where an actor has a next step, there are fewer entries than the plan makes at most.
pub fn next_has_room()
    ensures { NextHasRoom }
{}
