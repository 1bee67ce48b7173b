//! Laws of the timers, each a call that does nothing.
ghost use Rattle.std.specs.Prelude.{List};
ghost use Rattle.watch_timers.specs.Timers.{Running};
ghost use Rattle.watch_timers.specs.TimerRuns.{Event, After, RunAsStarted};

/// After every list of calls those keys run that were started and neither cancelled nor taken out since, each
/// since its first start; and the keys that are taken out are exactly those that have run for 15 seconds.
pub fn timers_run_as_started()
    ensures { (events : List Event) (timers : Running) → After events timers → RunAsStarted events timers }
{}
