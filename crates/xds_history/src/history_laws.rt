//! Laws of histories, each the clause of a function without a body.
ghost use Rattle.xds_history.specs.HistoryLaws.{LatestHasReferences, NoOthers, OneReply, PublishedHasHeld, PublishedHasPinned, ReportsChangeNothing, WholeHasNoOthers};

/// Two right histories over the same events and refused pattern texts are the same: replies are determined.
#[tactic(auto, using(crate::proofs::LawProofs::one_reply))]
pub fn one_reply()
    ensures { OneReply }
{}

/// The clusters of a whole configuration are those that its host names or that calls refer to, in order,
/// each once.
#[tactic(auto, using(crate::proofs::LawProofs::no_others))]
pub fn no_others()
    ensures { NoOthers }
{}

/// After a driver's entry of a right history at which no reached key is awaited, the clusters of the
/// configuration are those that its host names or that calls refer to, in order, each once.
#[tactic(auto, using(crate::proofs::KeepProofs::whole_has_no_others))]
pub fn whole_has_no_others()
    ensures { WholeHasNoOthers }
{}

/// The latest snapshot of a right history has every cluster that a call refers to.
#[tactic(auto, using(crate::proofs::KeepProofs::latest_has_references))]
pub fn latest_has_references()
    ensures { LatestHasReferences }
{}

/// Each snapshot that a right history publishes while a pin is open has every cluster that the host of the
/// pinned snapshot names.
#[tactic(auto, using(crate::proofs::KeepProofs::published_has_pinned))]
pub fn published_has_pinned()
    ensures { PublishedHasPinned }
{}

/// Each snapshot that a right history publishes while a call holds a cluster has it.
#[tactic(auto, using(crate::proofs::KeepProofs::published_has_held))]
pub fn published_has_held()
    ensures { PublishedHasHeld }
{}

/// A driver's entry that reports an endpoint's state, or is a sweep, changes no watched key, awaits what was
/// awaited, leaves the configuration and sends no request, where calls refer to the same clusters as at the
/// driver's entry before.
#[tactic(auto, using(crate::proofs::StillProofs::reports_change_nothing))]
pub fn reports_change_nothing()
    ensures { ReportsChangeNothing }
{}
