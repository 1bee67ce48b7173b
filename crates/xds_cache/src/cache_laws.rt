//! Laws of the cache, each a call that does nothing.
ghost use Rattle.std.specs.Prelude.{List};
ghost use Rattle.xds_cache.specs.KeptFates.{Watched};
ghost use Rattle.xds_cache.specs.CacheCalls.{Event, After, FollowCalls};

/// After every list of calls those keys are watched that the calls say, and the fate of each is the one that the
/// order of its deliveries, deletions and expiries gives since it is watched.
pub fn fates_follow_calls()
    ensures { (events : List Event) (keys : Watched) → After events keys → FollowCalls events keys }
{}
