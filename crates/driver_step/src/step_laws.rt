//! Laws of a driver's entry, each the clause of a function without a body.
ghost use Rattle.driver_step.specs.DriverSteps.{AnswersAreNext, CachesAssemble, ReachedKeysRise};
ghost use Rattle.driver_step.specs.SettledKeys.{CallersLeaveSettled, DriversSettleKeys, ReportsChangeNoKey, ReportsLeaveFates, ReportsLeaveStreams};

/// A reply by what is reached, awaited and configured makes the next entry of a right history, and its page.
pub fn answers_are_next()
    ensures { AnswersAreNext }
{}

/// What is reached, awaited and configured by a cache that knows what came is what the history makes of it.
pub fn caches_assemble()
    ensures { CachesAssemble }
{}

/// Each driver's entry settles what is watched.
pub fn drivers_settle_keys()
    ensures { DriversSettleKeys }
{}

/// A caller's entry leaves it settled.
pub fn callers_leave_settled()
    ensures { CallersLeaveSettled }
{}

/// Where it is settled, a report of an endpoint's state or a sweep changes nothing of what is watched, awaited and configured,
/// and asks for nothing.
pub fn reports_change_no_key()
    ensures { ReportsChangeNoKey }
{}

/// Nor does such an entry change a stream.
pub fn reports_leave_streams()
    ensures { ReportsLeaveStreams }
{}

/// Nor what is kept of fates and timers.
pub fn reports_leave_fates()
    ensures { ReportsLeaveFates }
{}

/// The keys that are reached stand in order, each once.
pub fn reached_keys_rise()
    ensures { ReachedKeysRise }
{}
