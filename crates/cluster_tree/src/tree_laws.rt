//! What the updates of a cluster's trees give, whatever the times, the reports and the leaves.
ghost use Rattle.tree_steps.specs.TreeHistories.{TreesFollowHistory};

/// One step on what is kept of a cluster's trees gives what is kept of their histories with one update
/// more. The history of a tree is the list of its updates, each with its leaves, reports and time, and its
/// children are those that the law of the children of a priority balancer speaks of.
pub fn trees_follow_history()
    ensures { TreesFollowHistory }
{}
