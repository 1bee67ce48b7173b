//! Laws of what is kept, each the clause of a function without a body.
ghost use Rattle.book_streams.specs.StreamsLaws.{AllStand, AskedIsKept, CallersChangeNothing, NamesFollow, OthersStand, QuietStands, RequestsFollow, ResponseFollows, SettledAfter, TurnsFollow};

/// Where an event brings no answered response, the state of a stream follows its turn.
#[tactic(auto, using(crate::proofs::TurnLemmas::turns_follow))]
pub fn turns_follow()
    ensures { TurnsFollow }
{}

/// The state of a stream follows the responses on it, and the verdict on each is the history's.
pub fn response_follows()
    ensures { ResponseFollows }
{}

/// The requests that a stream says are due are those of the history.
#[tactic(auto, using(crate::proofs::RequestLemmas::requests_follow))]
pub fn requests_follow()
    ensures { RequestsFollow }
{}

/// Once the requests have been sent, a stream stands as after the entry.
#[tactic(auto, using(crate::proofs::RequestLemmas::names_follow))]
pub fn names_follow()
    ensures { NamesFollow }
{}

/// An event leaves the streams of all authorities but its own.
#[tactic(auto, using(crate::proofs::PlaceLemmas::others_stand))]
pub fn others_stand()
    ensures { OthersStand }
{}

/// A moment, a report and a sweep leave all streams.
#[tactic(auto, using(crate::proofs::PlaceLemmas::all_stand))]
pub fn all_stand()
    ensures { AllStand }
{}

/// A caller's entry leaves all streams.
#[tactic(auto, using(crate::proofs::PlaceLemmas::callers_change_nothing))]
pub fn callers_change_nothing()
    ensures { CallersChangeNothing }
{}

/// The kinds that were asked for stand in the state of a stream.
#[tactic(auto, using(crate::proofs::QuietLemmas::asked_is_kept))]
pub fn asked_is_kept()
    ensures { AskedIsKept }
{}

/// A stream that has nothing to do with an event, and whose names were asked for, stands; nothing is sent on it.
pub fn quiet_stands()
    ensures { QuietStands }
{}

/// After a driver's entry the watched names are those that were asked for last.
#[tactic(auto, using(crate::proofs::QuietLemmas::settled_after))]
pub fn settled_after()
    ensures { SettledAfter }
{}
