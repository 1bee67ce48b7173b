//! Laws of the way that a call takes, each the clause of a function without a body.
ghost use Rattle.call_clusters.specs.CallCourses.{ClustersKept, HoldsHavePins};

/// In a right history each snapshot from a call's pin to its commit, or to the end, has that call's cluster,
/// where its route names one.
#[tactic(auto, using(crate::proofs::CourseProofs::clusters_kept))]
pub fn clusters_kept()
    ensures { ClustersKept }
{}

/// In a right history each hold whose route names a cluster has its pin before it.
#[tactic(auto, using(crate::proofs::CourseProofs::holds_have_pins))]
pub fn holds_have_pins()
    ensures { HoldsHavePins }
{}
