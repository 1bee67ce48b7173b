//! The entries of clusters once endpoints changed, block by block: a block that they don't touch is the same shared one as before.
ghost use Rattle.std.specs.Prelude.{◌≡◌, ◌<◌, ◌≤◌, ◌+◌, ◌*◌, ◌^◌, ℕ, false, length, take, drop, IfOk, OnOk};
ghost use Rattle.std.specs.List.{list_any};
ghost use Rattle.dep_manager.specs.EndpointNews.{is_told};
ghost use Rattle.dep_manager.specs.RenewedConfigs.{renewed_entries};
ghost use Rattle.dep_manager.specs.ToldPlaces.{AreToldFrom, IsCountBefore};

use crate::endpoint_news::NewsReader;
use crate::entry_renewal::renewed_entry;
use block_list::{BLOCK_SIZE, BlockList};
use std::alloc::Global;
use xc_base::{Key, List, Memory, Shared};
use xds_config::ClusterEntry;

/// How many blocks so many members have.
fn block_count(members: usize) -> usize
    requires { members < 2 ^ 63 }
    ensures each { (number : ℕ) → number < result → 32 * number < members }
    ensures all { members ≤ 32 * result }
{
    (members + BLOCK_SIZE - 1) / BLOCK_SIZE
}

/// The keys of the leaves of the clusters of the block of this number.
fn part_of(sources: &[List<Option<Key>>], number: usize) -> &[List<Option<Key>>]
    requires { 32 * number ≤ length sources.now }
    ensures { result.now ≡ take 32 (drop (32 * number) sources.now) }
{
    let rest = &sources[BLOCK_SIZE * number..];
    rest.split_at(rest.len().min(BLOCK_SIZE)).0
}

/// How many of the places in front stand before an end.
fn count_before(places: &[u32], end: usize) -> usize
    ensures { IsCountBefore places.now end result }
{
    for count in 0..places.len() {
        if places[count] as usize >= end {
            return count;
        }
    }
    places.len()
}

/// The places behind so many in front.
fn behind(places: &[u32], count: usize) -> &[u32]
    requires { count ≤ length places.now }
    ensures { result.now ≡ drop count places.now }
{
    places.split_at(count).1
}

/// The entries of clusters whose leaves have their endpoints from these keys, once some changed, where the places of the clusters
/// of which any did are known. The first cluster stands at a place of which the places behind are told too.
fn renewed_entries(
    alloc: Global,
    news: &mut NewsReader<'_>,
    entries: &[Shared<ClusterEntry>],
    sources: &[List<Option<Key>>],
    first: usize,
    places: &[u32],
) -> Result<List<Shared<ClusterEntry>>, Memory>
    requires few { first + length sources.now < 2 ^ 63 }
    requires told { AreToldFrom news.old places.now first sources.now }
    ensures list { IfOk result (λ list. list ≡ renewed_entries news.old entries.now sources.now) }
    ensures same { OnOk result (news.new ≡ news.old) }
{
    let mut list = List::from_vec(Vec::with_capacity(alloc, entries.len())?);
    let mut left = places;
    for at in 0..entries.len().min(sources.len()) {
        let ahead = count_before(left, first + at + 1);
        let keys = sources[at].as_slice();
        list.push(renewed_entry(alloc, news, &entries[at], keys, 0 < ahead)?)?;
        left = behind(left, ahead);
    }
    Ok(list)
}

/// The entries of a block, once endpoints changed. Where none of its clusters is touched, it is the same shared block.
fn renewed_block(
    alloc: Global,
    news: &mut NewsReader<'_>,
    block: &Shared<List<Shared<ClusterEntry>>>,
    sources: &[List<Option<Key>>],
    first: usize,
    places: &[u32],
    is_touched: bool,
) -> Result<Shared<List<Shared<ClusterEntry>>>, Memory>
    requires few { first + length sources.now < 2 ^ 63 }
    requires told { AreToldFrom news.old places.now first sources.now }
    requires untouched { is_touched ≡ false → list_any (list_any (is_told news.old)) sources.now ≡ false }
    ensures block { IfOk result (λ new. new ≡ renewed_entries news.old block.now sources.now) }
    ensures same { OnOk result (news.new ≡ news.old) }
{
    if !is_touched && block.get().len() <= sources.len() {
        return block.share();
    }
    let entries = renewed_entries(alloc, news, block.get().as_slice(), sources, first, places)?;
    Ok(Shared::new(alloc, entries)?)
}

/// The entries of the block of this number, once endpoints changed.
fn block_at(
    alloc: Global,
    news: &mut NewsReader<'_>,
    clusters: &BlockList<Shared<ClusterEntry>>,
    sources: &[List<Option<Key>>],
    number: usize,
    places: &[u32],
    is_touched: bool,
) -> Result<Shared<List<Shared<ClusterEntry>>>, Memory>
    requires few { 32 * number + length sources.now < 2 ^ 63 }
    requires told { AreToldFrom news.old places.now (32 * number) sources.now }
    requires untouched { is_touched ≡ false → list_any (list_any (is_told news.old)) sources.now ≡ false }
    ensures block { IfOk result (λ block. block ≡ renewed_entries news.old (take 32 (drop (32 * number) clusters.now)) sources.now) }
    ensures same { OnOk result (news.new ≡ news.old) }
{
    match clusters.block(number) {
        Some(block) => {
            let first = BLOCK_SIZE * number;
            renewed_block(alloc, news, block, sources, first, places, is_touched)
        }
        None => Ok(Shared::new(alloc, List::new(alloc))?),
    }
}

/// The entries of clusters whose leaves have their endpoints from these keys, once some changed, where the places of the clusters
/// of which any did are known. Each of these places is passed once, and of the other clusters the blocks alone.
pub fn renewed_blocks(
    alloc: Global,
    news: &mut NewsReader<'_>,
    clusters: &BlockList<Shared<ClusterEntry>>,
    sources: &[List<Option<Key>>],
    places: &[u32],
) -> Result<BlockList<Shared<ClusterEntry>>, Memory>
    requires few { length clusters.now < 2 ^ 31 }
    requires told { AreToldFrom news.old places.now 0 sources.now }
    ensures blocks { IfOk result (λ blocks. blocks ≡ renewed_entries news.old clusters.now sources.now) }
    ensures same { OnOk result (news.new ≡ news.old) }
{
    let mut left = places;
    let mut blocks = BlockList::new(alloc);
    for number in 0..block_count(clusters.len().min(sources.len())) {
        let ahead = count_before(left, BLOCK_SIZE * (number + 1));
        let part = part_of(sources, number);
        let block = block_at(alloc, news, clusters, part, number, left, 0 < ahead)?;
        blocks.push_block(block)?;
        left = behind(left, ahead);
    }
    Ok(blocks)
}
