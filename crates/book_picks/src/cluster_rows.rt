//! The rows of clusters: where the counts of a cluster's localities stand.
ghost use Rattle.std.specs.Prelude.{◌≡◌, Some, length, map, set, option_copied, IfOk, OnOk};
ghost use Rattle.book_picks.specs.CountedPlaces.{Extends, index_of};
ghost use Rattle.book_picks.specs.ClusterRows.{AreIndexesOf, key_in, keys_in, keys_of};

use crate::place_counts::{PlaceCounts, PlaceKey};
use cluster_tree::NamedChild;
use std::alloc::Global;
use xc_base::{List, Memory, Text};
use xds_config::{Locality, LocalityId};

/// A cluster of the configuration.
#[derive(Drop)]
pub struct Row {
    /// The index of the count of each locality of its chosen child, in order.
    pub indexes: List<usize>,
}

/// Rows of so many clusters, of which none has a locality yet. It fails for want of memory alone.
pub fn bare_rows(alloc: Global, count: usize) -> Result<Vec<Row>, Memory>
    ensures { IfOk result (λ rows. length rows.items ≡ count) }
{
    let mut rows = Vec::with_capacity(alloc, count)?;
    for _ in 0..count {
        rows.push(Row {
            indexes: List::new(alloc),
        })?;
    }
    Ok(rows)
}

/// Puts a row at a place, where there is one. It takes no memory.
pub fn put_row(rows: &mut Vec<Row>, place: u32, row: Row)
    ensures { rows.new.items ≡ set rows.old.items place row }
{
    if let Some(old) = rows.get_mut(place as usize) {
        *old = row;
    }
}

/// A locality in a child of a cluster.
fn key_in(cluster: &Text, child: &NamedChild, id: &LocalityId) -> Result<PlaceKey, Memory>
    ensures { IfOk result (λ key. key ≡ key_in cluster.now child.now id.now) }
{
    Ok(PlaceKey {
        cluster: cluster.clone()?,
        leaf: child.leaf.clone()?,
        priority: child.priority,
        region: id.region.clone()?,
        zone: id.zone.clone()?,
        sub_zone: id.sub_zone.clone()?,
    })
}

/// The index of the count of a locality.
fn index_in(
    counts: &mut PlaceCounts,
    cluster: &Text,
    child: &NamedChild,
    id: &LocalityId,
) -> Result<usize, Memory>
    ensures index { IfOk result (λ i. index_of counts.new (key_in cluster.now child.now id.now) ≡ Some i) }
    ensures extends { OnOk result (Extends counts.old counts.new) }
{
    counts.index(key_in(cluster, child, id)?)
}

/// The indexes of the counts of localities.
fn indexes_in(
    alloc: Global,
    counts: &mut PlaceCounts,
    cluster: &Text,
    child: &NamedChild,
    localities: &[&Locality],
) -> Result<List<usize>, Memory>
    ensures indexes { IfOk result (λ indexes. AreIndexesOf counts.new indexes (keys_in cluster.now child.now (map (λ r. r.now) localities.now))) }
    ensures extends { OnOk result (Extends counts.old counts.new) }
{
    let mut indexes = List::from_vec(Vec::with_capacity(alloc, localities.len())?);
    for locality in localities {
        let index = index_in(counts, cluster, child, &locality.id)?;
        indexes.push(index)?;
    }
    Ok(indexes)
}

/// The indexes of the counts of the localities of a cluster's chosen child; a cluster with no child has none. It fails for
/// want of memory alone.
pub fn indexes_of(
    alloc: Global,
    counts: &mut PlaceCounts,
    cluster: &Text,
    child: Option<&NamedChild>,
    localities: &[&Locality],
) -> Result<List<usize>, Memory>
    ensures indexes { IfOk result (λ indexes. AreIndexesOf counts.new indexes (keys_of cluster.now (option_copied child.entry) (map (λ r. r.now) localities.now))) }
    ensures extends { OnOk result (Extends counts.old counts.new) }
{
    match child {
        Some(child) => indexes_in(alloc, counts, cluster, child, localities),
        None => Ok(List::new(alloc)),
    }
}
