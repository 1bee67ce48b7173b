//! Clusters before and after an update, side by side in the order of their names.
ghost use Rattle.std.specs.Prelude.{◌≡◌, ◌<◌, ◌≤◌, ◌++◌, ◌∷◌, ◌↔◌, ◌||◌, ◌^◌, ℕ, [], length, get_or, option_map, true, false, Some, not, nat_lt, IsTrue, IfOk, IfSome, OnOk};
ghost use Rattle.xds_config.specs.Configs.{AreLawfulLeaves, IsNameBefore};
ghost use Rattle.cluster_tree.specs.declared.cluster_trees.Cluster.{Cluster as ClusterValue};
ghost use Rattle.cluster_tree.specs.StandingTrees.{cluster_after, cluster_named, stands_in};
ghost use Rattle.cluster_tree.specs.ClusterUsers.{AreRising, IsReached, StaysUnmarked};
ghost use Rattle.cluster_tree.specs.ViewChanges.{seen_of, IsChangeMark};

use crate::cluster_timers::stands;
use crate::cluster_trees::{Cluster, NextCluster, cluster_after, share_cluster};
use place_marks::Marks;
use std::alloc::Global;
use std::cmp::Ordering;
use std::collections::BTreeMap;
use xc_base::{Address, Memory, Same, Shared, State, Text, Time};
use xds_config::ClusterEntry;

/// The times of an update and of the one before it.
#[derive(Clone, Copy)]
pub(crate) struct Times {
    pub(crate) last: Time,
    pub(crate) this: Time,
}

/// An update as a cluster sees it.
#[derive(Clone, Copy)]
pub(crate) struct Turn {
    pub(crate) times: Times,
    /// Whether the cluster reads an address whose state changed.
    pub(crate) marked: bool,
}

/// The clusters of a configuration after an update.
#[derive(Drop)]
pub(crate) struct NextClusters {
    pub(crate) clusters: Vec<Cluster>,
    /// For each, whether what is seen of it differs from before.
    pub(crate) changed: Marks,
    /// For each, whether it isn't the cluster that stood at its place.
    pub(crate) anew: Marks,
}

impl NextClusters {
    /// No clusters, with room for so many. It fails for want of memory alone.
    pub(crate) fn with_room(alloc: Global, room: usize) -> Result<NextClusters, Memory>
        ensures clusters { IfOk result (λ next. next.clusters.items ≡ []) }
        ensures changed { IfOk result (λ next. next.changed ≡ []) }
        ensures anew { IfOk result (λ next. next.anew ≡ []) }
    {
        Ok(NextClusters {
            clusters: Vec::with_capacity(alloc, room)?,
            changed: Marks::none(alloc, 0),
            anew: Marks::none(alloc, 0),
        })
    }

    /// One more cluster, which has the place that it had before or another one.
    pub(crate) fn push(&mut self, next: NextCluster, moved: bool) -> Result<(), Memory>
        requires changed { length self.old.changed < 2 ^ 32 }
        requires anew { length self.old.anew < 2 ^ 32 }
        ensures clusters { OnOk result (self.new.clusters.items ≡ self.old.clusters.items ++ next.cluster ∷ []) }
        ensures changed { OnOk result (self.new.changed ≡ self.old.changed ++ next.changed ∷ []) }
        ensures anew { OnOk result (self.new.anew ≡ self.old.anew ++ (next.anew || moved) ∷ []) }
    {
        self.clusters.push(next.cluster)?;
        self.changed.push(next.changed)?;
        self.anew.push(next.anew || moved)?;
        Ok(())
    }
}

/// Whether a name stands before another.
fn is_before(name: &Text, other: &Text) -> bool
    ensures { IsTrue result ↔ IsNameBefore name.now other.now }
{
    matches!(name.cmp(other), Ordering::Less)
}

/// The first place, from one on, whose cluster doesn't stand before the name.
fn first_not_before(clusters: &[Cluster], from: usize, name: &Text) -> usize
    requires within { from ≤ length clusters.now }
    requires passed { (k : ℕ) (d : ClusterValue) → k < from → IsNameBefore (get_or clusters.now k d).entry.name name.now }
    ensures { IsReached clusters.now name.now result }
{
    for place in from..clusters.len() {
        if !is_before(&clusters[place].entry.get().name, name) {
            return place;
        }
    }
    clusters.len()
}

/// The cluster of a name, which can only stand at this place.
fn named_at<'a>(clusters: &'a [Cluster], place: usize, name: &Text) -> Option<&'a Cluster>
    requires rising { AreRising clusters.now }
    requires place { IsReached clusters.now name.now place }
    ensures named { option_map (λ r. r.now) result ≡ cluster_named name.now clusters.now }
    ensures here { IfSome (option_map (λ r. r.now) result) (λ c. (place < length clusters.now) × (get_or clusters.now place c ≡ c)) }
{
    let cluster = clusters.get(place)?;
    if cluster.entry.get().name.same(name) {
        Some(cluster)
    } else {
        None
    }
}

/// Where the clusters have the one of a name.
#[derive(Clone, Copy)]
pub(crate) struct Found<'a> {
    /// The first place whose cluster doesn't stand before the name.
    pub(crate) place: usize,
    /// The cluster of the name, if there is one.
    pub(crate) cluster: Option<&'a Cluster>,
}

/// The cluster of a name, among those from a place on.
pub(crate) fn find_cluster<'a>(clusters: &'a [Cluster], from: usize, name: &Text) -> Found<'a>
    requires rising { AreRising clusters.now }
    requires within { from ≤ length clusters.now }
    requires passed { (k : ℕ) (d : ClusterValue) → k < from → IsNameBefore (get_or clusters.now k d).entry.name name.now }
    ensures reached { IsReached clusters.now name.now result.place }
    ensures named { option_map (λ r. r.now) result.cluster ≡ cluster_named name.now clusters.now }
    ensures here { IfSome (option_map (λ r. r.now) result.cluster) (λ c. (result.place < length clusters.now) × (get_or clusters.now result.place c ≡ c)) }
{
    let place = first_not_before(clusters, from, name);
    Found {
        place,
        cluster: named_at(clusters, place, name),
    }
}

/// The mark at a place; there is none where there is no such place.
pub(crate) fn is_marked(marks: &[bool], place: usize) -> bool
    ensures { result ≡ get_or marks.now place false }
{
    match marks.get(place) {
        Some(mark) => *mark,
        None => false,
    }
}

/// Whether a cluster has to take an update.
fn is_due(cluster: &Cluster, turn: Turn) -> bool
    ensures { result ≡ (turn.marked || not (stands_in turn.times.this cluster.now.state) || nat_lt turn.times.this.0 turn.times.last.0) }
{
    turn.marked || !stands(cluster, turn.times.this) || turn.times.this.0 < turn.times.last.0
}

/// Whether a cluster stays as it is: its entry does, and it doesn't have to take the update.
fn stays(cluster: &Cluster, entry: &ClusterEntry, turn: Turn) -> bool
    ensures due { result ≡ true → (turn.marked || not (stands_in turn.times.this cluster.now.state) || nat_lt turn.times.this.0 turn.times.last.0) ≡ false }
    ensures same { result ≡ true → cluster.now.entry ≡ entry.now }
{
    !is_due(cluster, turn) && cluster.entry.get().same(entry)
}

/// A cluster that stays as it is.
fn same_cluster(cluster: &Cluster) -> Result<NextCluster, Memory>
    ensures changed { IfOk result (λ next. IsChangeMark next.changed (Some (seen_of cluster.now)) (seen_of next.cluster)) }
    ensures cluster { IfOk result (λ next. next.cluster ≡ cluster.now) }
{
    Ok(NextCluster {
        cluster: share_cluster(cluster)?,
        changed: false,
        anew: false,
    })
}

/// The cluster of an entry after an update, or want of memory. It is made anew only where the entry isn't the same as
/// before, or the cluster has to take the update.
pub(crate) fn next_cluster(
    alloc: Global,
    reports: &BTreeMap<Address, State>,
    turn: Turn,
    entry: &Shared<ClusterEntry>,
    before: Option<&Cluster>,
) -> Result<NextCluster, Memory>
    requires lawful { IfOk entry.now.state AreLawfulLeaves }
    requires unmarked { IfSome (option_map (λ r. r.now) before) (λ c. StaysUnmarked turn.times.last turn.times.this reports.now.entries turn.marked c) }
    ensures changed { IfOk result (λ next. IsChangeMark next.changed (option_map seen_of (option_map (λ r. r.now) before.entry)) (seen_of next.cluster)) }
    ensures cluster { IfOk result (λ next. next.cluster ≡ cluster_after turn.times.this reports.now.entries entry.now (option_map (λ r. r.now) before.entry)) }
    ensures anew { IfOk result (λ next. next.anew ≡ false → option_map (λ r. r.now) before.entry ≡ Some next.cluster) }
{
    match before {
        Some(cluster) if stays(cluster, entry.get(), turn) => same_cluster(cluster),
        _ => cluster_after(alloc, reports, turn.times.this, entry, before),
    }
}
