//! Laws of what is kept of the trees, and of the snapshots that show them, each the clause of a function without a body.
ghost use Rattle.book_trees.specs.ReportedLaws.{CallersLeaveTrees, ConfigsAreKept, LatestShowsWhatStands, MarksTellChange, NoTreesStand, NumbersAreFew, TreesServe, StayKeepsPlaces};

/// A caller's entry leaves what is kept as it is.
pub fn callers_leave_trees()
    ensures { CallersLeaveTrees }
{}

/// So does a driver's entry where there is no configuration before and after.
pub fn no_trees_stand()
    ensures { NoTreesStand }
{}

/// A channel never loses its configuration.
pub fn configs_are_kept()
    ensures { ConfigsAreKept }
{}

/// The latest snapshot of a channel's right history shows what stands.
pub fn latest_shows_what_stands()
    ensures { LatestShowsWhatStands }
{}

/// Snapshots are no more than entries.
#[tactic(auto, using(crate::proofs::DueNumberLemmas::numbers_are_few))]
pub fn numbers_are_few()
    ensures { NumbersAreFew }
{}

/// What stands differs exactly where the configuration or a view does.
#[tactic(auto, using(crate::proofs::MarkedLemmas::marks_tell_change))]
pub fn marks_tell_change()
    ensures { MarksTellChange }
{}

/// The kept trees have the localities that are served of each cluster of the configuration.
#[tactic(auto, using(crate::proofs::ServedLemmas::trees_serve))]
pub fn trees_serve()
    ensures { TreesServe }
{}

/// Where the configuration and what is seen of a cluster stay, so do the localities of its chosen child.
pub fn stay_keeps_places()
    ensures { StayKeepsPlaces }
{}
