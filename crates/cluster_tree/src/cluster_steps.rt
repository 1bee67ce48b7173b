//! Clusters that take an update in their places.
ghost use Rattle.std.specs.Prelude.{◌≡◌, ◌<◌, ◌≤◌, ℕ, length, get_or, set, replicate, false, All, IfOk, OnOk, Some};
ghost use Rattle.xds_config.specs.Configs.{AreLawfulLeaves};
ghost use Rattle.cluster_tree.specs.StandingTrees.{cluster_after};
ghost use Rattle.cluster_tree.specs.ClusterTimers.{AreDueMarked, AreSteppedAt, AreTimed, AreTimedBut, IsSteppedAt};
ghost use Rattle.cluster_tree.specs.ClusterUsers.{StandBut};
ghost use Rattle.cluster_tree.specs.ViewChanges.{seen_of, IsChangeMark, MarkChangesInPlace};

use crate::cluster_timers::add_end;
use crate::cluster_trees::{Cluster, NextCluster, cluster_after};
use place_marks::Marks;
use std::alloc::Global;
use std::collections::{BTreeMap, BTreeSet};
use tree_timers::TimerEnds;
use xc_base::{Address, Memory, State, Time};

/// Clusters while those that are due take an update in their places.
#[derive(Drop)]
pub(crate) struct InPlace {
    pub(crate) clusters: Vec<Cluster>,
    /// When the first timer of each cluster's trees ends, where one runs.
    pub(crate) ends: TimerEnds,
    /// For each cluster, whether what is seen of it differs from before.
    pub(crate) changed: Marks,
    /// For each cluster, whether it took the update.
    pub(crate) anew: Marks,
}

/// A cluster that stays in the configuration, after an update.
fn step_cluster(
    alloc: Global,
    reports: &BTreeMap<Address, State>,
    now: Time,
    cluster: &Cluster,
) -> Result<NextCluster, Memory>
    requires { IfOk cluster.now.entry.state AreLawfulLeaves }
    ensures changed { IfOk result (λ next. IsChangeMark next.changed (Some (seen_of cluster.now)) (seen_of next.cluster)) }
    ensures cluster { IfOk result (λ next. next.cluster ≡ cluster_after now reports.now.entries cluster.now.entry (Some cluster.now)) }
{
    cluster_after(alloc, reports, now, &cluster.entry, Some(cluster))
}

/// Marks a place, where `mark` is set.
fn set_mark(marks: &mut Marks, place: u32, mark: bool) -> Result<(), Memory>
    requires within { place < length marks.old }
    requires last { (later : ℕ) → place ≤ later → get_or marks.old later false ≡ false }
    ensures { OnOk result (marks.new ≡ set marks.old place mark) }
{
    if mark {
        marks.mark(place)?;
    }
    Ok(())
}

/// Puts a cluster in its place.
pub(crate) fn put_cluster(clusters: &mut Vec<Cluster>, place: usize, next: Cluster)
    requires { place < length clusters.old.items }
    ensures { clusters.new.items ≡ set clusters.old.items place next }
{
    clusters[place] = next;
}

impl InPlace {
    /// Has the cluster at a place take an update. It fails for want of memory alone.
    fn step(
        &mut self,
        alloc: Global,
        reports: &BTreeMap<Address, State>,
        now: Time,
        place: u32,
    ) -> Result<(), Memory>
        requires within { place < length self.old.clusters.items }
        requires count { length self.old.changed ≡ length self.old.clusters.items }
        requires anew_count { length self.old.anew ≡ length self.old.clusters.items }
        requires lawful { All (λ c. IfOk c.entry.state AreLawfulLeaves) self.old.clusters.items }
        requires last { (later : ℕ) → place ≤ later → get_or self.old.changed later false ≡ false }
        requires last_anew { (later : ℕ) → place ≤ later → get_or self.old.anew later false ≡ false }
        ensures { OnOk result (IsSteppedAt now reports.now.entries place self.old self.new) }
    {
        let next = step_cluster(alloc, reports, now, &self.clusters[place as usize])?;
        add_end(&mut self.ends, &next.cluster, place)?;
        set_mark(&mut self.changed, place, next.changed)?;
        self.anew.mark(place)?;
        put_cluster(&mut self.clusters, place as usize, next.cluster);
        Ok(())
    }
}

/// Has the clusters that are due take an update, one after another. A place where there is no cluster is passed over. It fails
/// for want of memory alone.
pub(crate) fn step_clusters(
    alloc: Global,
    reports: &BTreeMap<Address, State>,
    now: Time,
    mut due: BTreeSet<u32>,
    stepped: &mut InPlace,
) -> Result<(), Memory>
    requires changed { stepped.old.changed ≡ replicate (length stepped.old.clusters.items) false }
    requires anew { stepped.old.anew ≡ replicate (length stepped.old.clusters.items) false }
    requires lawful { All (λ c. IfOk c.entry.state AreLawfulLeaves) stepped.old.clusters.items }
    requires timed { AreTimedBut due stepped.old.ends stepped.old.clusters.items }
    ensures clusters { OnOk result (AreSteppedAt now reports.now.entries due stepped.old.clusters.items stepped.new.clusters.items) }
    ensures changed { OnOk result (MarkChangesInPlace stepped.new.changed stepped.old.clusters.items stepped.new.clusters.items) }
    ensures anew { OnOk result (StandBut stepped.new.anew stepped.old.clusters.items stepped.new.clusters.items) }
    ensures due { OnOk result (AreDueMarked due stepped.new.anew) }
    ensures timed { OnOk result (AreTimed stepped.new.ends stepped.new.clusters.items) }
{
    while let Some(place) = due.pop_first() {
        if (place as usize) < stepped.clusters.len() {
            stepped.step(alloc, reports, now, place)?;
        }
    }
    Ok(())
}
