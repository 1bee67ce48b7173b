//! The Endpoint keys of leaves.
ghost use Rattle.std.specs.Prelude.{◌≡◌, ◌==◌, ◌<◌, ◌≤◌, ◌^◌, ◌||◌, ◌&&◌, ℕ, All, IfOk, OnOk, length, map, option_map};
ghost use Rattle.std.specs.List.{list_any};
ghost use Rattle.xc_base.specs.declared.names.Key.{Key as KeyValue};
ghost use Rattle.xc_base.specs.declared.names.Kind.TheVariants.{Endpoint as EndpointKind};
ghost use Rattle.config_assembly.specs.DepsViews.{seen, seen_name};
ghost use Rattle.dep_manager.specs.KeptAssemblies.{source_of, sources_of};
ghost use Rattle.dep_manager.specs.LeafPlaces.{ArePlacesOf, has_leaf, has_place, is_listed, is_source};

use block_list::BlockList;
use config_assembly::Sight;
use config_assembly::reach::endpoint_name;
use key_table::KeyTable;
use std::alloc::Global;
use std::collections::BTreeMap;
use std::marker::Model;
use std::sync::ledger::Ledger;
use xc_base::{Key, Kind, List, Memory, Reason, Shared, Steps, Text};
use xds_config::{ClusterEntry, Clusters, Leaf, Leaves};

/// Lists a place for the key of a leaf, where it has one.
fn list_place(
    alloc: Global,
    places: &mut BTreeMap<Key, List<u32>>,
    source: &Option<Key>,
    place: u32,
) -> Result<(), Memory>
    ensures { OnOk result ((key : KeyValue) (at : ℕ) → is_listed places.new.entries key at ≡ (is_listed places.old.entries key at || (is_source key source.now && (place == at)))) }
{
    let Some(key) = source else {
        return Ok(());
    };
    if let Some(listed) = places.get_mut(key) {
        listed.push(place)?;
        return Ok(());
    }
    let mut listed = List::new(alloc);
    listed.push(place)?;
    places.insert(key.clone()?, listed)?;
    Ok(())
}

/// Lists the place of a cluster for the key of each of its leaves.
fn list_cluster(
    alloc: Global,
    places: &mut BTreeMap<Key, List<u32>>,
    sources: &[Option<Key>],
    place: u32,
) -> Result<(), Memory>
    ensures { OnOk result ((key : KeyValue) (at : ℕ) → is_listed places.new.entries key at ≡ (is_listed places.old.entries key at || (list_any (is_source key) sources.now && (place == at)))) }
{
    for source in sources {
        list_place(alloc, places, source, place)?;
    }
    Ok(())
}

/// For each key of a leaf, the places of the clusters that have a leaf with it.
fn places_of(alloc: Global, sources: &[List<Option<Key>>]) -> Result<KeyTable<List<u32>>, Memory>
    requires { length sources.now ≤ 2 ^ 32 }
    ensures { IfOk result (ArePlacesOf sources.now) }
{
    let mut places = BTreeMap::new(alloc);
    for place in 0..sources.len() {
        list_cluster(alloc, &mut places, sources[place].as_slice(), place as u32)?;
    }
    let table = KeyTable::of(alloc, places)?;
    Ok(table)
}

/// The Endpoint keys of leaves, cluster by cluster, and where each stands. Contracts see the keys.
#[derive(Drop)]
pub struct LeafSources {
    /// For each cluster, the Endpoint key of each leaf, where the leaf's cluster is known.
    keys: List<List<Option<Key>>>,
    /// For each of these keys, the places of the clusters that have a leaf with it, from 0.
    places: KeyTable<List<u32>>,
}

impl Model for LeafSources {
    ghost use Rattle.std.specs.Prelude.{◌≤◌, ◌^◌, length};
    ghost use Rattle.dep_manager.specs.LeafPlaces.{ArePlacesOf, Sources};

    ghost Value = { Sources };

    ghost view = { λ s. s.keys };

    ghost invariant = { λ s. ArePlacesOf s.keys s.places × (length s.keys ≤ 2 ^ 32) };
}

impl LeafSources {
    /// Those of clusters whose leaves have these keys.
    fn of(alloc: Global, keys: List<List<Option<Key>>>) -> Result<LeafSources, Memory>
        requires { length keys ≤ 2 ^ 32 }
        ensures { IfOk result (λ sources. sources ≡ keys) }
    {
        let places = places_of(alloc, keys.as_slice())?;
        Ok(LeafSources { keys, places })
    }

    /// How many clusters there are.
    pub fn len(&self) -> usize
        ensures count { result ≡ length self.now }
        ensures few { result ≤ 2 ^ 32 }
    {
        self.keys.len()
    }

    /// For each cluster, the key of each leaf.
    pub fn as_slice(&self) -> &[List<Option<Key>>]
        ensures { result.now ≡ self.now }
    {
        self.keys.as_slice()
    }

    /// The places of the clusters that have a leaf with this key. Where keys are asked for in nearly their order, `near` tells
    /// where the next one is likely to stand.
    pub fn places_of(&self, key: &Key, near: &mut usize) -> &[u32]
        ensures listed { (at : ℕ) → has_place result.now at ≡ has_leaf self.now key.now at }
        ensures within { All (λ place. place < length self.now) result.now }
    {
        match self.places.get(key, near) {
            Some(places) => places.as_slice(),
            None => &[],
        }
    }
}

/// The key of an Endpoint resource, where there is a name.
fn endpoint_key(sight: Sight<'_>, name: Option<&Text>) -> Result<Option<Key>, Memory>
    ensures { IfOk result (λ key. key ≡ option_map ((seen sight.entry).key EndpointKind) (seen_name name.entry)) }
{
    match name {
        Some(name) => Ok(Some(sight.key(Kind::Endpoint, name)?)),
        None => Ok(None),
    }
}

/// The Endpoint key of a leaf, where its cluster is known.
fn source_of<L: Ledger>(
    sight: Sight<'_>,
    name: &Text,
    steps: &mut Steps<L>,
) -> Result<Option<Key>, Memory>
    ensures { IfOk result (λ key. key ≡ source_of (seen sight.entry) name.now) }
{
    let fate = sight.fate(Kind::Cluster, name, steps)?;
    endpoint_key(sight, endpoint_name(fate))
}

/// The Endpoint keys of leaves.
fn sources_of_leaves<L: Ledger>(
    sight: Sight<'_>,
    leaves: &[Leaf],
    steps: &mut Steps<L>,
) -> Result<List<Option<Key>>, Memory>
    ensures { IfOk result (λ keys. keys ≡ map (λ leaf. source_of (seen sight.entry) leaf.name) leaves.now) }
{
    let mut keys = List::from_vec(Vec::with_capacity(sight.alloc, leaves.len())?);
    for leaf in leaves {
        keys.push(source_of(sight, &leaf.name, steps)?)?;
    }
    Ok(keys)
}

/// The Endpoint keys of a cluster's leaves, where it has any.
fn sources_of<L: Ledger>(
    sight: Sight<'_>,
    state: &Result<Shared<Leaves>, Reason>,
    steps: &mut Steps<L>,
) -> Result<List<Option<Key>>, Memory>
    ensures { IfOk result (λ keys. keys ≡ sources_of (seen sight.entry) state.now) }
{
    match state {
        Ok(leaves) => sources_of_leaves(sight, leaves.get().leaves.as_slice(), steps),
        Err(_) => Ok(List::new(sight.alloc)),
    }
}

/// The Endpoint keys of the leaves of each of these clusters.
fn keys_of_entries<L: Ledger>(
    sight: Sight<'_>,
    entries: &BlockList<Shared<ClusterEntry>>,
    steps: &mut Steps<L>,
) -> Result<List<List<Option<Key>>>, Memory>
    requires { length entries.now < 2 ^ 31 }
    ensures { IfOk result (λ keys. keys ≡ map (λ entry. sources_of (seen sight.entry) entry.state) entries.now) }
{
    let mut keys = List::from_vec(Vec::with_capacity(sight.alloc, entries.len())?);
    for place in 0..entries.len() {
        let entry = entries.at(place);
        keys.push(sources_of(sight, &entry.get().state, steps)?)?;
    }
    Ok(keys)
}

/// The Endpoint keys of each cluster's leaves.
pub fn sources_of_all<L: Ledger>(
    sight: Sight<'_>,
    clusters: &Clusters,
    steps: &mut Steps<L>,
) -> Result<LeafSources, Memory>
    ensures { IfOk result (λ sources. sources ≡ map (λ entry. sources_of (seen sight.entry) entry.state) clusters.now) }
{
    let entries = clusters.as_blocks();
    let keys = keys_of_entries(sight, entries, steps)?;
    let sources = LeafSources::of(sight.alloc, keys)?;
    Ok(sources)
}
