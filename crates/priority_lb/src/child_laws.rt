//! What the updates of children give, whatever the times, the states and the names.
ghost use Rattle.priority_lb.specs.ChildLaws.{OneStep, ManySteps, ChildByChild, SameNames, PlaceByPlace};

/// Over every list of updates, whose names, states and times are free:
/// - `one_step`: one step on the facts of a history gives the facts and the chosen child of the history
///   with one update more;
/// - `many_steps`: the steps of all updates give the facts of the history;
/// - `child_by_child`: what the history says of each child, in the words of those before it;
/// - `same_names`: children whose names stay need not be carried;
/// - `place_by_place`: an update at each place.
pub fn updates_follow_history()
    ensures one_step { OneStep }
    ensures many_steps { ManySteps }
    ensures child_by_child { ChildByChild }
    ensures same_names { SameNames }
    ensures place_by_place { PlaceByPlace }
{}
