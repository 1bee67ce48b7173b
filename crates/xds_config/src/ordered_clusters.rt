//! The clusters of a configuration in the order of their names.
ghost use Rattle.std.specs.Prelude.{◌≡◌, ◌<◌, ◌≤◌, ◌^◌, ◌↔◌, ◌≢◌, Some, length, map, take, slice_get, option_map, bytes_eq, position, All, IsNone, IfSome, IsTrue};
ghost use Rattle.xds_config.specs.SearchedLists.{AreByName, IsNameBefore, IsPlaceFor};

use crate::config::ClusterEntry;
use block_list::BlockList;
use std::cmp::Ordering;
use std::marker::Model;
use xc_base::{Same, Shared, Text};

/// Clusters by the bytes of their names, no two of one name and fewer than 2^31, which contracts see as
/// the list of them. A name is found by halves. They lie in blocks, so that configurations which differ in a few clusters
/// share the others.
#[derive(Drop)]
pub struct Clusters {
    items: BlockList<Shared<ClusterEntry>>,
}

impl Model for Clusters {
    ghost use Rattle.std.specs.Prelude.{List};
    ghost use Rattle.xds_config.specs.declared.config.ClusterEntry.{ClusterEntry};
    ghost use Rattle.xds_config.specs.SearchedLists.{AreByName};

    ghost Value = { List ClusterEntry };

    ghost view = { λ c. c.items };

    ghost invariant = { λ c. AreByName c.items };
}

/// Whether a cluster stands before a name.
fn is_before(cluster: &ClusterEntry, name: &Text) -> bool
    ensures { IsTrue result ↔ IsNameBefore cluster.now.name name.now }
{
    matches!(cluster.name.cmp(name), Ordering::Less)
}

/// The first place whose cluster doesn't stand before a name.
fn place_for(clusters: &BlockList<Shared<ClusterEntry>>, name: &Text) -> usize
    requires { AreByName clusters.now }
    ensures { IsPlaceFor clusters.now name.now result }
{
    let mut from = 0;
    let mut to = clusters.len();
    while from < to {
        let middle = from + (to - from) / 2;
        if is_before(clusters.at(middle).get(), name) {
            from = middle + 1;
        } else {
            to = middle;
        }
    }
    from
}

/// Whether the cluster at a place has this name.
fn is_named(clusters: &BlockList<Shared<ClusterEntry>>, place: usize, name: &Text) -> bool
    ensures { IsTrue result ↔ (option_map (λ c. c.name) (slice_get clusters.now place) ≡ Some name.now) }
{
    match clusters.get(place) {
        Some(cluster) => cluster.get().name.same(name),
        None => false,
    }
}

impl Clusters {
    /// These clusters. It takes no memory.
    pub fn from_blocks(items: BlockList<Shared<ClusterEntry>>) -> Clusters
        requires { AreByName items }
        ensures { result ≡ items }
    {
        Clusters { items }
    }

    /// Other entries of the same clusters: of these, one after another, from the first one on. It takes no
    /// memory.
    pub fn renewed(&self, items: BlockList<Shared<ClusterEntry>>) -> Clusters
        requires { map (λ c. c.name) items ≡ take (length items) (map (λ c. c.name) self.now) }
        ensures { result ≡ items }
    {
        // It is read, since what the type promises is known of what is read alone.
        let _ = &self.items;
        Clusters { items }
    }

    /// Them all, to read, in blocks.
    pub fn as_blocks(&self) -> &BlockList<Shared<ClusterEntry>>
        ensures same { result.now ≡ self.now }
        ensures few { length result.now < 2 ^ 31 }
    {
        &self.items
    }

    /// How many there are.
    pub fn len(&self) -> usize
        ensures { result ≡ length self.now }
    {
        self.items.len()
    }

    /// The place of the cluster of a name, from 0. None exactly where no cluster has the name. It takes no
    /// memory.
    pub fn find(&self, name: &Text) -> Option<u32>
        ensures place { result ≡ position (λ c. bytes_eq c.name name.now) self.now }
        ensures found { IfSome result (λ i. option_map (λ c. c.name) (slice_get self.now i) ≡ Some name.now) }
        ensures none { IsNone result ↔ All (λ c. c.name ≢ name.now) self.now }
    {
        let place = place_for(&self.items, name);
        if is_named(&self.items, place, name) {
            Some(place as u32)
        } else {
            None
        }
    }
}
