//! The entry of a cluster once endpoints changed: what they don't touch is the same shared value as before.
ghost use Rattle.std.specs.Prelude.{◌≡◌, IfOk, OnOk};
ghost use Rattle.std.specs.List.{list_any};
ghost use Rattle.dep_manager.specs.EndpointNews.{is_told};
ghost use Rattle.dep_manager.specs.RenewedConfigs.{renewed_entry, renewed_leaf, renewed_leaves, renewed_state};

use crate::endpoint_news::NewsReader;
use std::alloc::Global;
use xc_base::{Key, List, Memory, Reason, Shared};
use xds_config::{ClusterEntry, EndpointValue, Leaf, Leaves};

/// The same endpoints, which are shared, or the same reason.
fn copy_state(
    state: &Result<Shared<EndpointValue>, Reason>,
) -> Result<Result<Shared<EndpointValue>, Reason>, Memory>
    ensures { IfOk result (λ copy. copy ≡ state.now) }
{
    match state {
        Ok(endpoints) => Ok(Ok(endpoints.share()?)),
        Err(reason) => Ok(Err(*reason)),
    }
}

/// A leaf with other endpoints.
fn leaf_with(leaf: &Leaf, state: &Result<Shared<EndpointValue>, Reason>) -> Result<Leaf, Memory>
    ensures { IfOk result (λ new. new ≡ record { name = leaf.now.name; state = state.now }) }
{
    let name = leaf.name.clone()?;
    let state = copy_state(state)?;
    Ok(Leaf { name, state })
}

/// A leaf that has its endpoints from this key, once some changed.
fn renewed_leaf(
    news: &mut NewsReader<'_>,
    leaf: &Leaf,
    source: &Option<Key>,
) -> Result<Leaf, Memory>
    ensures leaf { IfOk result (λ new. new ≡ renewed_leaf news.old leaf.now source.now) }
    ensures same { OnOk result (news.new ≡ news.old) }
{
    let Some(key) = source else {
        return leaf.clone();
    };
    match news.get(key) {
        Some(state) => leaf_with(leaf, state),
        None => leaf.clone(),
    }
}

/// Leaves that have their endpoints from these keys, once some changed.
fn renewed_leaves(
    alloc: Global,
    news: &mut NewsReader<'_>,
    leaves: &[Leaf],
    sources: &[Option<Key>],
) -> Result<List<Leaf>, Memory>
    ensures list { IfOk result (λ list. list ≡ renewed_leaves news.old leaves.now sources.now) }
    ensures same { OnOk result (news.new ≡ news.old) }
{
    let mut list = List::from_vec(Vec::with_capacity(alloc, leaves.len())?);
    let mut left = sources;
    for leaf in leaves {
        let Some((source, rest)) = left.split_first() else {
            return Ok(list);
        };
        list.push(renewed_leaf(news, leaf, source)?)?;
        left = rest;
    }
    Ok(list)
}

/// The leaves of a cluster, which have their endpoints from these keys, once some changed.
fn renewed_state(
    alloc: Global,
    news: &mut NewsReader<'_>,
    state: &Result<Shared<Leaves>, Reason>,
    sources: &[Option<Key>],
) -> Result<Result<Shared<Leaves>, Reason>, Memory>
    ensures state { IfOk result (λ new. new ≡ renewed_state news.old state.now sources.now) }
    ensures same { OnOk result (news.new ≡ news.old) }
{
    match state {
        Ok(leaves) => {
            let aggregate = leaves.get().aggregate;
            let leaves = renewed_leaves(alloc, news, leaves.get().leaves.as_slice(), sources)?;
            Ok(Ok(Shared::new(alloc, Leaves { aggregate, leaves })?))
        }
        Err(reason) => Ok(Err(*reason)),
    }
}

/// The entry of a cluster whose leaves have their endpoints from these keys, once some changed, where it is known whether any of
/// these keys did.
pub fn renewed_entry(
    alloc: Global,
    news: &mut NewsReader<'_>,
    entry: &Shared<ClusterEntry>,
    sources: &[Option<Key>],
    told: bool,
) -> Result<Shared<ClusterEntry>, Memory>
    requires { told ≡ list_any (is_told news.old) sources.now }
    ensures entry { IfOk result (λ new. new ≡ renewed_entry news.old entry.now sources.now) }
    ensures same { OnOk result (news.new ≡ news.old) }
{
    if !told {
        return entry.share();
    }
    let name = entry.get().name.clone()?;
    let state = renewed_state(alloc, news, &entry.get().state, sources)?;
    Ok(Shared::new(alloc, ClusterEntry { name, state })?)
}
