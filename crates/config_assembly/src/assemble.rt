//! The whole configuration (gRFC A74, A37).
ghost use Rattle.std.specs.Prelude.{◌≡◌, ◌<◌, ◌^◌, IfOk, All, length, map};
ghost use Rattle.std.specs.List.Sorted.{IsStrictlySortedBy};
ghost use Rattle.xc_base.specs.declared.names.Kind.TheVariants.{Endpoint as EndpointKind};
ghost use Rattle.xds_config.specs.Configs.{AreLawfulLeaves, IsLawfulConfig, IsLawfulFront};
ghost use Rattle.xds_config.specs.Endpoints.{IsLawfulEndpoints};
ghost use Rattle.aggregate_expand.specs.Leaves.{leaves_of};
ghost use Rattle.xds_cache.specs.KeptFates.{shown};
ghost use Rattle.config_assembly.specs.Orders.{name_cmp};
ghost use Rattle.config_assembly.specs.ReachedResources.{IsLawfulOf, reason_of};
ghost use Rattle.config_assembly.specs.Reach.{aggregates, endpoint_name};
ghost use Rattle.config_assembly.specs.WholeConfigs.{cluster_entry, cluster_state, endpoints_of, leaf_of, leaf_state, leaves_state};
ghost use Rattle.config_assembly.specs.Tables.{AreLawfulRows, row_at};
ghost use Rattle.config_assembly.specs.DepsViews.{seen, seen_name};

use crate::reach::{children_of, endpoint_name};
use crate::sight::Sight;
use crate::table::Table;
use aggregate_expand::{ExpandFault, leaves};
use block_list::in_blocks;
use std::alloc::AllocError;
use std::sync::ledger::Ledger;
use xc_base::{Kind, List, Memory, Reason, Shared, Steps, Text};
use xds_cache::Fate;
use xds_config::{ClusterEntry, Clusters, Config, EndpointValue, Front, Leaf, Leaves, Value};

/// No list has so many members within the limits of a session.
const TOO_MANY: usize = 1 << 31;

/// Why what isn't wanted has no value.
fn reason_of(fate: Fate<'_>) -> Reason
    ensures { result ≡ reason_of (shown fate.entry) }
{
    match fate {
        Fate::Invalid(reason) => *reason,
        _ => Reason::Absent,
    }
}

/// The endpoints that are known, or why there are none.
fn endpoints_of(fate: Fate<'_>) -> Result<Result<Shared<EndpointValue>, Reason>, Memory>
    requires { IsLawfulOf EndpointKind (shown fate) }
    ensures state { IfOk result (λ state. state ≡ endpoints_of (shown fate.entry)) }
    ensures lawful { IfOk result (λ state. IfOk state IsLawfulEndpoints) }
{
    match fate {
        Fate::Value(Value::Endpoint(endpoints)) => Ok(Ok(endpoints.share()?)),
        fate => Ok(Err(reason_of(fate))),
    }
}

/// The endpoints of a leaf, of whose cluster this is known.
fn leaf_state<L: Ledger>(
    sight: Sight<'_>,
    own: Fate<'_>,
    steps: &mut Steps<L>,
) -> Result<Result<Shared<EndpointValue>, Reason>, Memory>
    ensures state { IfOk result (λ state. state ≡ leaf_state (seen sight.entry) (shown own.entry) (endpoint_name (shown own.entry))) }
    ensures lawful { IfOk result (λ state. IfOk state IsLawfulEndpoints) }
{
    match endpoint_name(own) {
        None => Ok(Err(reason_of(own))),
        Some(name) => endpoints_of(sight.fate(Kind::Endpoint, name, steps)?),
    }
}

/// A leaf with its endpoints.
fn leaf<L: Ledger>(sight: Sight<'_>, name: &Text, steps: &mut Steps<L>) -> Result<Leaf, Memory>
    ensures leaf { IfOk result (λ leaf. leaf ≡ leaf_of (seen sight.entry) name.now) }
    ensures lawful { IfOk result (λ leaf. IfOk leaf.state IsLawfulEndpoints) }
{
    let own = sight.fate(Kind::Cluster, name, steps)?;
    let state = leaf_state(sight, own, steps)?;
    let name = name.clone()?;
    Ok(Leaf { name, state })
}

/// Leaves with their endpoints.
fn all_leaves<L: Ledger>(
    sight: Sight<'_>,
    names: &[Text],
    steps: &mut Steps<L>,
) -> Result<List<Leaf>, Memory>
    ensures leaves { IfOk result (λ leaves. leaves ≡ map (leaf_of (seen sight.entry)) names.now) }
    ensures lawful { IfOk result (λ leaves. All (λ leaf. IfOk leaf.state IsLawfulEndpoints) leaves) }
{
    let mut leaves = List::from_vec(Vec::with_capacity(sight.alloc, names.len())?);
    for name in names {
        leaves.push(leaf(sight, name, steps)?)?;
    }
    Ok(leaves)
}

/// The leaves of a cluster that has a value, or the reason of a chain that is too long.
fn expand_leaves<L: Ledger>(
    sight: Sight<'_>,
    aggregate: bool,
    name: &Text,
    table: &Table,
    steps: &mut Steps<L>,
) -> Result<Result<Shared<Leaves>, Reason>, Memory>
    requires rows { AreLawfulRows table.now }
    requires leaves { leaves_of (row_at table.now) name.now ≡ leaves_of (aggregates (seen sight)) name.now }
    ensures state { IfOk result (λ state. state ≡ leaves_state (seen sight.entry) aggregate (leaves_of (aggregates (seen sight.entry)) name.now)) }
    ensures lawful { IfOk result (λ state. IfOk state AreLawfulLeaves) }
{
    match leaves(sight.alloc, name, table, steps) {
        Ok(names) if names.len() < TOO_MANY => {
            let leaves = all_leaves(sight, names.as_slice(), steps)?;
            Ok(Ok(Shared::new(sight.alloc, Leaves { aggregate, leaves })?))
        }
        Err(ExpandFault::Depth) => Ok(Err(Reason::Depth)),
        _ => Err(AllocError),
    }
}

/// The leaves of a cluster of which this is known, or why calls to it fail.
fn cluster_state<L: Ledger>(
    sight: Sight<'_>,
    name: &Text,
    own: Fate<'_>,
    table: &Table,
    steps: &mut Steps<L>,
) -> Result<Result<Shared<Leaves>, Reason>, Memory>
    requires rows { AreLawfulRows table.now }
    requires leaves { leaves_of (row_at table.now) name.now ≡ leaves_of (aggregates (seen sight)) name.now }
    ensures state { IfOk result (λ state. state ≡ cluster_state (seen sight.entry) name.now (shown own.entry)) }
    ensures lawful { IfOk result (λ state. IfOk state AreLawfulLeaves) }
{
    match own {
        Fate::Value(_) => expand_leaves(sight, children_of(own).is_some(), name, table, steps),
        _ => Ok(Err(reason_of(own))),
    }
}

/// The entry of a cluster in the configuration.
fn entry<L: Ledger>(
    sight: Sight<'_>,
    name: &Text,
    table: &Table,
    steps: &mut Steps<L>,
) -> Result<Shared<ClusterEntry>, Memory>
    requires rows { AreLawfulRows table.now }
    requires leaves { leaves_of (row_at table.now) name.now ≡ leaves_of (aggregates (seen sight)) name.now }
    ensures entry { IfOk result (λ entry. entry ≡ cluster_entry (seen sight.entry) name.now) }
    ensures lawful { IfOk result (λ entry. IfOk entry.state AreLawfulLeaves) }
{
    let own = sight.fate(Kind::Cluster, name, steps)?;
    let state = cluster_state(sight, name, own, table, steps)?;
    let name = name.clone()?;
    Ok(Shared::new(sight.alloc, ClusterEntry { name, state })?)
}

/// The entries of clusters in the configuration.
fn entries<L: Ledger>(
    sight: Sight<'_>,
    names: &[Text],
    table: &Table,
    steps: &mut Steps<L>,
) -> Result<List<Shared<ClusterEntry>>, Memory>
    requires rows { AreLawfulRows table.now }
    requires leaves { All (λ name. leaves_of (row_at table.now) name ≡ leaves_of (aggregates (seen sight)) name) names.now }
    ensures entries { IfOk result (λ entries. entries ≡ map (cluster_entry (seen sight.entry)) names.now) }
    ensures lawful { IfOk result (λ entries. All (λ entry. IfOk entry.state AreLawfulLeaves) entries) }
{
    let mut entries = List::from_vec(Vec::with_capacity(sight.alloc, names.len())?);
    for name in names {
        entries.push(entry(sight, name, table, steps)?)?;
    }
    Ok(entries)
}

/// The configuration with this front and the clusters of these names, where the table has the children of
/// the aggregates on chains from them.
pub fn config<L: Ledger>(
    sight: Sight<'_>,
    front: Result<Front, Reason>,
    names: &[Text],
    table: &Table,
    steps: &mut Steps<L>,
) -> Result<Shared<Config>, Memory>
    requires front { IfOk front IsLawfulFront }
    requires rising { IsStrictlySortedBy name_cmp names.now }
    requires rows { AreLawfulRows table.now }
    requires leaves { All (λ name. leaves_of (row_at table.now) name ≡ leaves_of (aggregates (seen sight)) name) names.now }
    ensures config { IfOk result (λ config. config ≡ record { front = front; clusters = map (cluster_entry (seen sight.entry)) names.now }) }
    ensures lawful { IfOk result IsLawfulConfig }
{
    if names.len() >= TOO_MANY {
        return Err(AllocError);
    }
    let entries = entries(sight, names, table, steps)?;
    let clusters = Clusters::from_blocks(in_blocks(sight.alloc, entries)?);
    Ok(Shared::new(sight.alloc, Config { front, clusters })?)
}
