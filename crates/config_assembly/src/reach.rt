//! What is reached (gRFC A74, A37).
ghost use Rattle.std.specs.Prelude.{◌≡◌, ◌++◌, IfOk, OnOk, [], ◌∷◌, map, option_to_list, unwrap_or};
ghost use Rattle.std.specs.List.{flat_map};
ghost use Rattle.std.specs.List.Sorted.{IsStrictlySortedBy};
ghost use Rattle.xc_base.specs.declared.names.Kind.TheVariants.{Route as RouteKind, Cluster as ClusterKind, Endpoint as EndpointKind};
ghost use Rattle.xc_keys.specs.Keys.{key_cmp};
ghost use Rattle.aggregate_expand.specs.Chains.{longest_chain};
ghost use Rattle.xds_cache.specs.KeptFates.{fate_of, shown};
ghost use Rattle.config_assembly.specs.Orders.{name_cmp, put_in, sorted};
ghost use Rattle.config_assembly.specs.Front.{named_routes, names_of};
ghost use Rattle.config_assembly.specs.Reach.{aggregates, children_among, children_of, endpoint_name, endpoint_names, keys_with, on_chains};
ghost use Rattle.config_assembly.specs.DepsViews.{seen, seen_name, seen_names};

use crate::front::put_front;
use crate::ordered::{in_order, keys_in_order, put_key, put_names};
use crate::sight::Sight;
use aggregate_expand::LONGEST_CHAIN;
use std::collections::BTreeSet;
use std::sync::ledger::Ledger;
use xc_base::{Key, Kind, List, Memory, Reason, Steps, Text};
use xds_cache::Fate;
use xds_config::{Front, RoutesFrom, Shape, Value};

/// The children of an aggregate that has a value.
pub fn children_of<'a>(fate: Fate<'a>) -> Option<&'a List<Text>>
    ensures { seen_names result ≡ children_of (shown fate.entry) }
{
    let Fate::Value(Value::Cluster(cluster)) = fate else {
        return None;
    };
    match &cluster.get().shape {
        Shape::Aggregate { clusters } => Some(clusters),
        Shape::Eds { .. } => None,
    }
}

/// The name of the Endpoint resource of an EDS cluster that has a value.
pub fn endpoint_name<'a>(fate: Fate<'a>) -> Option<&'a Text>
    ensures { seen_name result ≡ endpoint_name (shown fate.entry) }
{
    let Fate::Value(Value::Cluster(cluster)) = fate else {
        return None;
    };
    let cluster = cluster.get();
    match &cluster.shape {
        Shape::Eds { service } if service.is_empty() => Some(&cluster.name),
        Shape::Eds { service } => Some(service),
        Shape::Aggregate { .. } => None,
    }
}

/// The Route resource that a listener names.
fn named_routes<'a>(fate: Fate<'a>) -> Option<&'a Text>
    ensures { seen_name result ≡ named_routes (shown fate.entry) }
{
    let Fate::Value(Value::Listener(listener)) = fate else {
        return None;
    };
    match &listener.get().routes {
        RoutesFrom::Named(name) => Some(name),
        RoutesFrom::Inline(_) => None,
    }
}

/// The clusters that the front's host names or that a call refers to, in order, each once.
pub fn roots(
    sight: Sight<'_>,
    front: &Option<Result<Front, Reason>>,
    references: &[Text],
) -> Result<List<Text>, Memory>
    ensures names { IfOk result (λ names. names ≡ sorted name_cmp (names_of front.now ++ references.now)) }
    ensures rising { IfOk result (IsStrictlySortedBy name_cmp) }
{
    let mut names = BTreeSet::new(sight.alloc);
    put_front(&mut names, front)?;
    put_names(&mut names, references)?;
    in_order(sight.alloc, names)
}

/// Puts the children of a cluster into a set.
fn put_children(names: &mut BTreeSet<Text>, fate: Fate<'_>) -> Result<(), Memory>
    ensures { OnOk result (names.new.keys ≡ put_in name_cmp names.old.keys (unwrap_or (children_of (shown fate.entry)) [])) }
{
    match children_of(fate) {
        Some(children) => put_names(names, children.as_slice()),
        None => Ok(()),
    }
}

/// The children of these clusters, in order, each once.
fn children_of_all<L: Ledger>(
    sight: Sight<'_>,
    clusters: &[Text],
    steps: &mut Steps<L>,
) -> Result<List<Text>, Memory>
    ensures { IfOk result (λ names. names ≡ sorted name_cmp (flat_map (children_among (aggregates (seen sight.entry))) clusters.now)) }
{
    let mut names = BTreeSet::new(sight.alloc);
    for cluster in clusters {
        put_children(&mut names, sight.fate(Kind::Cluster, cluster, steps)?)?;
    }
    in_order(sight.alloc, names)
}

/// The clusters on chains that begin with one of these, in order, each once.
pub fn on_chains<L: Ledger>(
    sight: Sight<'_>,
    roots: &List<Text>,
    steps: &mut Steps<L>,
) -> Result<List<Text>, Memory>
    ensures { IfOk result (λ names. names ≡ sorted name_cmp (on_chains (aggregates (seen sight.entry)) longest_chain roots.now)) }
{
    let mut names = BTreeSet::new(sight.alloc);
    let mut level = roots.clone()?;
    for _ in 0..LONGEST_CHAIN {
        put_names(&mut names, level.as_slice())?;
        level = children_of_all(sight, level.as_slice(), steps)?;
    }
    in_order(sight.alloc, names)
}

/// Puts the key of the Route resource that the listener names into a set.
fn put_routes<L: Ledger>(
    keys: &mut BTreeSet<Key>,
    sight: Sight<'_>,
    steps: &mut Steps<L>,
) -> Result<(), Memory>
    ensures { OnOk result (keys.new.keys ≡ put_in key_cmp keys.old.keys (map ((seen sight.entry).key RouteKind) (option_to_list (named_routes ((seen sight.entry).fate (seen sight.entry).target.key))))) }
{
    match named_routes(sight.listener(steps)) {
        Some(name) => put_key(keys, sight.key(Kind::Route, name)?),
        None => Ok(()),
    }
}

/// Puts the keys of these clusters into a set.
fn put_clusters(keys: &mut BTreeSet<Key>, sight: Sight<'_>, clusters: &[Text]) -> Result<(), Memory>
    ensures { OnOk result (keys.new.keys ≡ put_in key_cmp keys.old.keys (map ((seen sight.entry).key ClusterKind) clusters.now)) }
{
    for cluster in clusters {
        put_key(keys, sight.key(Kind::Cluster, cluster)?)?;
    }
    Ok(())
}

/// Puts the key of a cluster's Endpoint resource into a set, where it has one.
fn put_endpoint(
    keys: &mut BTreeSet<Key>,
    sight: Sight<'_>,
    name: Option<&Text>,
) -> Result<(), Memory>
    ensures { OnOk result (keys.new.keys ≡ put_in key_cmp keys.old.keys (map ((seen sight.entry).key EndpointKind) (option_to_list (seen_name name.entry)))) }
{
    match name {
        Some(name) => put_key(keys, sight.key(Kind::Endpoint, name)?),
        None => Ok(()),
    }
}

/// Puts the keys of these clusters' Endpoint resources into a set.
fn put_endpoints<L: Ledger>(
    keys: &mut BTreeSet<Key>,
    sight: Sight<'_>,
    clusters: &[Text],
    steps: &mut Steps<L>,
) -> Result<(), Memory>
    ensures { OnOk result (keys.new.keys ≡ put_in key_cmp keys.old.keys (map ((seen sight.entry).key EndpointKind) (endpoint_names (seen sight.entry) clusters.now))) }
{
    for cluster in clusters {
        let fate = sight.fate(Kind::Cluster, cluster, steps)?;
        put_endpoint(keys, sight, endpoint_name(fate))?;
    }
    Ok(())
}

/// The keys that are reached with these clusters, in order, each once.
pub fn reached_keys<L: Ledger>(
    sight: Sight<'_>,
    clusters: &[Text],
    steps: &mut Steps<L>,
) -> Result<List<Key>, Memory>
    ensures { IfOk result (λ keys. keys ≡ sorted key_cmp (keys_with (seen sight.entry) clusters.now)) }
{
    let mut keys = BTreeSet::new(sight.alloc);
    put_key(&mut keys, sight.target.key.clone()?)?;
    put_routes(&mut keys, sight, steps)?;
    put_clusters(&mut keys, sight, clusters)?;
    put_endpoints(&mut keys, sight, clusters, steps)?;
    keys_in_order(sight.alloc, keys)
}
