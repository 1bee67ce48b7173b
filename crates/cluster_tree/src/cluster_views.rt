//! What is seen of clusters, in blocks: one is made anew only where a cluster of it may be another one.
ghost use Rattle.std.specs.Prelude.{◌≡◌, ◌<◌, ◌≤◌, ◌+◌, ◌*◌, ◌^◌, ℕ, length, get_or, slice_get, take, drop, false, IfOk, IfSome};
ghost use Rattle.cluster_tree.specs.declared.cluster_trees.Cluster.{Cluster as ClusterValue};
ghost use Rattle.cluster_tree.specs.StandingTrees.{views_of};
ghost use Rattle.cluster_tree.specs.ViewChanges.{seen_of};
ghost use Rattle.cluster_tree.specs.KeptViews.{IsCountBefore, StayBut};

use crate::cluster_trees::{Cluster, view_of};
use block_list::{BLOCK_SIZE, BlockList};
use place_marks::Marks;
use std::alloc::Global;
use tree_text::ShownTree;
use xc_base::{List, Memory, Reason, Shared};

/// What is seen of the clusters.
fn views_of(
    alloc: Global,
    clusters: &[Cluster],
) -> Result<List<Result<Shared<ShownTree>, Reason>>, Memory>
    ensures { IfOk result (λ views. views ≡ views_of clusters.now) }
{
    let mut views = List::from_vec(Vec::with_capacity(alloc, clusters.len())?);
    for cluster in clusters {
        views.push(view_of(cluster)?)?;
    }
    Ok(views)
}

/// The clusters of the block of this number.
fn part_of(clusters: &[Cluster], number: usize) -> &[Cluster]
    requires { 32 * number ≤ length clusters.now }
    ensures { result.now ≡ take 32 (drop (32 * number) clusters.now) }
{
    let rest = &clusters[BLOCK_SIZE * number..];
    rest.split_at(rest.len().min(BLOCK_SIZE)).0
}

/// The block of this number, where it has so many members.
fn standing_block(
    views: &BlockList<Result<Shared<ShownTree>, Reason>>,
    number: usize,
    count: usize,
) -> Option<&Shared<List<Result<Shared<ShownTree>, Reason>>>>
    ensures block { IfSome result (λ block. block.now ≡ take 32 (drop (32 * number) views.now)) }
    ensures count { IfSome result (λ block. length block.now ≡ count) }
{
    match views.block(number) {
        Some(block) if block.get().len() == count => Some(block),
        _ => None,
    }
}

/// What is seen of the clusters of a block. Where none of them is marked, each is seen as before, and the block from before is
/// shared.
fn block_of(
    alloc: Global,
    views: &BlockList<Result<Shared<ShownTree>, Reason>>,
    number: usize,
    clusters: &[Cluster],
    is_marked: bool,
) -> Result<Shared<List<Result<Shared<ShownTree>, Reason>>>, Memory>
    requires { is_marked ≡ false → (place : ℕ) (d : ClusterValue) → place < length clusters.now → IfSome (slice_get views.now (32 * number + place)) (λ view. view ≡ seen_of (get_or clusters.now place d)) }
    ensures { IfOk result (λ block. block ≡ views_of clusters.now) }
{
    match standing_block(views, number, clusters.len()) {
        Some(block) if !is_marked => block.share(),
        _ => {
            let block = views_of(alloc, clusters)?;
            Ok(Shared::new(alloc, block)?)
        }
    }
}

/// How many blocks so many members have.
fn block_count(members: usize) -> usize
    requires { members < 2 ^ 63 }
    ensures each { (number : ℕ) → number < result → 32 * number < members }
    ensures all { members ≤ 32 * result }
{
    (members + BLOCK_SIZE - 1) / BLOCK_SIZE
}

/// How many of the places stand before an end, where it is known that so many in front do.
fn count_before(places: &[u32], passed: usize, end: usize) -> usize
    requires within { passed ≤ length places.now }
    requires before { (k d : ℕ) → k < passed → get_or places.now k d < end }
    ensures { IsCountBefore places.now end result }
{
    for count in passed..places.len() {
        if places[count] as usize >= end {
            return count;
        }
    }
    places.len()
}

/// What is seen of clusters, where an unmarked one is seen as it is in these views, if it stands there. The marked places rise,
/// so each is passed once, and the others not at all.
pub(crate) fn views_after(
    alloc: Global,
    views: &BlockList<Result<Shared<ShownTree>, Reason>>,
    clusters: &[Cluster],
    marks: &Marks,
) -> Result<BlockList<Result<Shared<ShownTree>, Reason>>, Memory>
    requires stay { StayBut marks.now views.now clusters.now }
    ensures { IfOk result (λ after. after ≡ views_of clusters.now) }
{
    let places = marks.places();
    let mut passed = 0;
    let mut after = BlockList::new(alloc);
    for number in 0..block_count(clusters.len()) {
        let before = passed;
        passed = count_before(places, before, BLOCK_SIZE * (number + 1));
        let part = part_of(clusters, number);
        let block = block_of(alloc, views, number, part, before < passed)?;
        after.push_block(block)?;
    }
    Ok(after)
}
