//! Entries of a configuration that are put in the places of their clusters, which keep their trees.
ghost use Rattle.std.specs.Prelude.{◌≡◌, ◌<◌, ◌≤◌, ℕ, Some, None, length, get_or, slice_get, map, option_map, replicate, false, IfSome, OnOk};
ghost use Rattle.cluster_tree.specs.declared.cluster_trees.Cluster.{Cluster as ClusterValue};
ghost use Rattle.cluster_tree.specs.ClusterUsers.{EntriesStay};
ghost use Rattle.cluster_tree.specs.PutEntries.{ArePut, AreReadAt, IsPutAt, IsTakenAt, StandsFor};
ghost use Rattle.tree_steps.specs.Users.{Grows};

use crate::cluster_steps::put_cluster;
use crate::cluster_trees::{Cluster, add_entry, with_entry};
use block_list::BlockList;
use place_marks::Marks;
use tree_steps::Users;
use xc_base::{Memory, Same, Shared};
use xds_config::ClusterEntry;

/// Clusters while entries of a configuration are put in their places.
#[derive(Drop)]
pub(crate) struct EntriesPut {
    pub(crate) clusters: Vec<Cluster>,
    /// Which clusters read which addresses.
    pub(crate) users: Users,
    /// For each cluster, whether another entry was put in its place.
    pub(crate) put: Marks,
}

/// The entry at a place, where it isn't that of the cluster there.
fn other_entry<'a>(
    clusters: &[Cluster],
    entries: &'a BlockList<Shared<ClusterEntry>>,
    place: usize,
) -> Option<&'a Shared<ClusterEntry>>
    requires { length entries.now ≡ length clusters.now }
    ensures other { IfSome (option_map (λ r. r.now) result) (λ entry. slice_get entries.now place ≡ Some entry) }
    ensures same { result ≡ None → (d : ClusterValue) → StandsFor (slice_get entries.now place) (get_or clusters.now place d) }
{
    let entry = entries.get(place)?;
    if clusters[place].entry.get().same(entry.get()) {
        None
    } else {
        Some(entry)
    }
}

impl EntriesPut {
    /// Puts an entry in the place of a cluster, which keeps its trees.
    fn put(&mut self, entry: &Shared<ClusterEntry>, place: u32) -> Result<(), Memory>
        requires within { place < length self.old.clusters.items }
        requires count { length self.old.put ≡ length self.old.clusters.items }
        requires last { (later : ℕ) → place ≤ later → get_or self.old.put later false ≡ false }
        ensures { OnOk result (IsPutAt place entry.now self.old self.new) }
    {
        let next = with_entry(&self.clusters[place as usize], entry)?;
        add_entry(&mut self.users, entry.get(), place)?;
        self.put.mark(place)?;
        put_cluster(&mut self.clusters, place as usize, next);
        Ok(())
    }

    /// Puts the entry at a place there, where it isn't that of the cluster.
    fn take(&mut self, entries: &BlockList<Shared<ClusterEntry>>, place: u32) -> Result<(), Memory>
        requires entries { length entries.now ≡ length self.old.clusters.items }
        requires count { length self.old.put ≡ length self.old.clusters.items }
        requires last { (later : ℕ) → place ≤ later → get_or self.old.put later false ≡ false }
        ensures { OnOk result (IsTakenAt place (slice_get entries.now place) self.old self.new) }
    {
        match other_entry(&self.clusters, entries, place as usize) {
            Some(entry) => self.put(entry, place),
            None => Ok(()),
        }
    }
}

/// Puts the entries of a configuration in the places of the clusters of their names, which keep their trees. Entries are compared
/// where they are marked, and the others are passed over. It fails for want of memory alone.
pub(crate) fn put_entries(
    entries: &BlockList<Shared<ClusterEntry>>,
    others: &Marks,
    stand: &mut EntriesPut,
) -> Result<(), Memory>
    requires none { stand.old.put ≡ replicate (length stand.old.clusters.items) false }
    requires others { EntriesStay others.now stand.old.clusters.items entries.now }
    requires names { map (λ e. e.name) entries.now ≡ map (λ c. c.entry.name) stand.old.clusters.items }
    ensures put { OnOk result (ArePut stand.new.put entries.now stand.old.clusters.items stand.new.clusters.items) }
    ensures read { OnOk result (AreReadAt stand.new.put stand.new.users stand.new.clusters.items) }
    ensures grows { OnOk result (Grows stand.old.users stand.new.users) }
{
    let places = others.places();
    for place in places {
        stand.take(entries, *place)?;
    }
    Ok(())
}
