//! Laws of the stream, each a call that does nothing.
ghost use Rattle.std.specs.Prelude.{List};
ghost use Rattle.xc_base.specs.declared.call.Node.{Node};
ghost use Rattle.ads_stream.specs.declared.stream.StreamState.{StreamState};
ghost use Rattle.ads_stream.specs.StreamCalls.{Event, After, FollowCalls};
ghost use Rattle.ads_stream.specs.StreamSteps.{TellsNamesApart};

/// After every list of calls each verdict was the one by its cause, and each `names` gave exactly the requests that
/// were due by the calls before it.
pub fn requests_follow_calls()
    ensures { (node : Node) (events : List Event) (state : StreamState) → After node events state → FollowCalls node events state }
{}

/// Names differ from those of the last request exactly where the two lists aren't equal.
pub fn names_are_told_apart()
    ensures { TellsNamesApart }
{}
