//! Laws of what is kept, each the clause of a function without a body.
ghost use Rattle.book_driver.specs.DriverKept.{CallersLeaveDriver, DriversHaveHistory, StillRepeats, StreamsAreAll};

/// A caller's entry leaves what is kept as it is.
pub fn callers_leave_driver()
    ensures { CallersLeaveDriver }
{}

/// What is kept of a history is kept of some history, as a step asks.
pub fn drivers_have_history()
    ensures { DriversHaveHistory }
{}

/// There is a stream for each authority.
pub fn streams_are_all()
    ensures { StreamsAreAll }
{}

/// A report repeats what the driver's last entry settled, where only calls' entries stand behind that one and calls refer to
/// the same clusters as there.
pub fn still_repeats()
    ensures { StillRepeats }
{}
