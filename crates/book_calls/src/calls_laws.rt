//! Laws of snapshots, pins and references.
ghost use Rattle.book_calls.specs.PublishedSnapshots.{PinsHaveSnapshots, SnapshotsAreNumbered};
ghost use Rattle.book_calls.specs.CallsLaws.{DriversChangeNoReferences, PicksLeave, RetainedAreReferences};

/// The snapshots of a right history are numbered in their order.
#[tactic(auto, using(crate::proofs::SnapshotNumbers::are_numbered))]
pub fn snapshots_are_numbered()
    ensures { SnapshotsAreNumbered }
{}

/// Each open pin is on a snapshot that was published.
pub fn pins_have_snapshots()
    ensures { PinsHaveSnapshots }
{}

/// A driver's entry changes nothing of what calls refer to.
#[tactic(auto, using(crate::proofs::ReferenceProofs::drivers_change_none))]
pub fn drivers_change_no_references()
    ensures { DriversChangeNoReferences }
{}

/// What is retained for the pins and holds of a history are its references.
#[tactic(auto, using(crate::proofs::ReferenceProofs::retained_are_references))]
pub fn retained_are_references()
    ensures { RetainedAreReferences }
{}

/// A pick leaves what is kept of calls as it is.
#[tactic(auto, using(crate::proofs::CallsProofs::picks_leave))]
pub fn picks_leave()
    ensures { PicksLeave }
{}
