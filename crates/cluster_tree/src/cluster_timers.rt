//! When timers of clusters' trees end, and which clusters are due at an update.
ghost use Rattle.std.specs.Prelude.{◌≡◌, ◌<◌, ◌^◌, ℕ, List, length, get_or, true, false, Contains, IfOk, OnOk};
ghost use Rattle.cluster_tree.specs.declared.cluster_trees.Cluster.{Cluster as ClusterValue};
ghost use Rattle.cluster_tree.specs.StandingTrees.{stands_in, until_in};
ghost use Rattle.cluster_tree.specs.ClusterTimers.{AreLeft, AreTimed, AreTimedBut, IsTimed};
ghost use Rattle.tree_steps.specs.Users.{users_at};
ghost use Rattle.tree_timers.specs.declared.timer_ends.TimerEnd.{TimerEnd};
ghost use Rattle.tree_timers.specs.EndsKept.{HasEnd, HasPlace, KeepsPlaces};

use crate::cluster_merge::Times;
use crate::cluster_trees::Cluster;
use place_marks::Marks;
use std::alloc::Global;
use std::collections::BTreeSet;
use tree_steps::Users;
use tree_timers::TimerEnds;
use xc_base::{Address, Memory, Time};

/// Until when time alone changes nothing of a cluster's trees, in milliseconds.
fn until(cluster: &Cluster) -> Time
    ensures { result.0 ≡ until_in cluster.now.state }
{
    match &cluster.state {
        Ok(standing) => standing.get().until,
        Err(_) => Time(u64::MAX),
    }
}

/// Whether none of the timers of a cluster's trees has ended at a time.
pub(crate) fn stands(cluster: &Cluster, now: Time) -> bool
    ensures { result ≡ stands_in now cluster.now.state }
{
    now.0 < until(cluster).0
}

/// Adds the end of a cluster's first timer, where one runs.
pub(crate) fn add_end(ends: &mut TimerEnds, cluster: &Cluster, place: u32) -> Result<(), Memory>
    ensures added { OnOk result (IsTimed ends.new place cluster.now) }
    ensures kept { OnOk result ((end : TimerEnd) → HasEnd ends.old end → HasEnd ends.new end) }
{
    let until = until(cluster);
    if until.0 < u64::MAX {
        ends.add(place, until)?;
    }
    Ok(())
}

/// Adds the ends of the first timers of clusters that aren't those which stood at their places.
pub(crate) fn add_new_ends(
    ends: &mut TimerEnds,
    clusters: &[Cluster],
    anew: &Marks,
) -> Result<(), Memory>
    requires count { length anew.now ≡ length clusters.now }
    requires others { (place : ℕ) (d : ClusterValue) → place < length clusters.now → get_or anew.now place false ≡ false → IsTimed ends.old place (get_or clusters.now place d) }
    ensures { OnOk result (AreTimed ends.new clusters.now) }
{
    let places = anew.places();
    for place in places {
        add_end(ends, &clusters[*place as usize], *place)?;
    }
    Ok(())
}

/// Adds places to a set.
fn add_places(due: &mut BTreeSet<u32>, places: &[u32]) -> Result<(), Memory>
    ensures added { OnOk result ((place : ℕ) → Contains places.now place → HasPlace due.new place) }
    ensures kept { OnOk result (KeepsPlaces due.old due.new) }
{
    for place in places {
        due.insert(*place)?;
    }
    Ok(())
}

/// Adds the places of the clusters that read one of these addresses to a set.
fn add_readers(due: &mut BTreeSet<u32>, users: &Users, changed: &[Address]) -> Result<(), Memory>
    ensures { OnOk result ((address : List ℕ) (place : ℕ) → Contains changed.now address → Contains (users_at users.now address) place → HasPlace due.new place) }
{
    for address in changed {
        add_places(due, users.at(address))?;
    }
    Ok(())
}

/// All places, of which there are so many.
fn all_places(alloc: Global, count: usize) -> Result<BTreeSet<u32>, Memory>
    requires { count < 2 ^ 31 }
    ensures { IfOk result (λ due. (place : ℕ) → place < count → HasPlace due place) }
{
    let mut due = BTreeSet::new(alloc);
    for place in 0..count {
        due.insert(place as u32)?;
    }
    Ok(due)
}

/// Which clusters an address or a time touches.
#[derive(Drop)]
pub(crate) struct ClusterIndex {
    /// Which clusters read which addresses.
    pub(crate) users: Users,
    /// When the first timer of each cluster's trees ends, where one runs.
    pub(crate) ends: TimerEnds,
}

impl ClusterIndex {
    /// No clusters. It takes no memory.
    pub(crate) fn new(alloc: Global) -> ClusterIndex {
        ClusterIndex {
            users: Users::new(alloc),
            ends: TimerEnds::new(alloc),
        }
    }

    /// The places of the clusters that have to take an update: those that read an address whose state changed, those of which
    /// a timer has ended, and those that stand for other entries than before. Where time goes back, or is the last of all times, they are all due. The ends that have come are taken out.
    pub(crate) fn due_places(
        &mut self,
        alloc: Global,
        times: Times,
        changed: &[Address],
        put: &Marks,
        clusters: &[Cluster],
    ) -> Result<BTreeSet<u32>, Memory>
        requires count { length put.now ≡ length clusters.now }
        requires few { length clusters.now < 2 ^ 31 }
        requires timed { AreTimed self.old.ends clusters.now }
        ensures users { self.new.users ≡ self.old.users }
        ensures left { IfOk result (λ due. AreLeft times.last times.this self.old.users changed.now due clusters.now) }
        ensures put { IfOk result (λ due. (place : ℕ) → get_or put.now place false ≡ true → HasPlace due place) }
        ensures timed { IfOk result (λ due. AreTimedBut due self.new.ends clusters.now) }
    {
        if times.this.0 < times.last.0 || times.this.0 == u64::MAX {
            return all_places(alloc, clusters.len());
        }
        let mut due = BTreeSet::new(alloc);
        add_readers(&mut due, &self.users, changed)?;
        add_places(&mut due, put.places())?;
        self.ends.take_due(times.this, &mut due)?;
        Ok(due)
    }
}
