//! The checks of a Cluster (gRFC A27, A37, A47, Envoy's cluster API).
ghost use Rattle.std.specs.Prelude.{◌≡◌, ◌≢◌, ◌&&◌, ℕ, List, [], All, IfOk, not};
ghost use Rattle.proto_cluster.specs.Aggregate.{aggregate_of};
ghost use Rattle.xds_config.specs.Clusters.{IsLawfulCluster, IsLawfulShape};
ghost use Rattle.xds_name.specs.Names.{is_xdstp};
ghost use Rattle.check_clusters.specs.ClusterTable.{aggregate_shape, cluster_value, eds_shape, shape_of};
ghost use Rattle.check_steps.specs.ResourceNames.{is_nothing, required_name};
ghost use Rattle.check_steps.specs.TableSteps.{Tells, each, readable};

use check_steps::check_fault::Fault;
use check_steps::resource_names::required_name;
use check_steps::sources::is_sourced;
use check_steps::table_steps::{MOST_BYTES, demand, few};
use proto_cluster::{RawCluster, RawClusterOne, RawClusterType, RawEds, read_aggregate};
use proto_discovery::AnyValue;
use proto_discovery::type_urls::AGGREGATE_URL;
use proto_wire::WireFault;
use std::alloc::Global;
use xc_base::{List, Reason, Text};
use xds_config::{ClusterValue, Shape};
use xds_name::canonical;

/// The name of the cluster type of aggregates.
const AGGREGATE: &str = "envoy.clusters.aggregate";

/// The number of the discovery type whose endpoints are a resource.
const EDS: u32 = 3;

/// The number of the policy that takes endpoints in turn.
const ROUND_ROBIN: u32 = 0;

/// The clusters of an aggregate, as its bytes name them.
fn children(alloc: Global, bytes: &[u8]) -> Result<List<Text>, Fault>
    ensures { Tells result (readable (aggregate_of bytes.now)) }
{
    if bytes.len() >= MOST_BYTES {
        return Err(Fault::Memory);
    }
    match read_aggregate(alloc, bytes) {
        Ok(children) => Ok(children),
        Err(WireFault::At(_)) => Err(Fault::because(Reason::Unreadable)),
        Err(WireFault::Memory) => Err(Fault::Memory),
    }
}

/// The canonical names of clusters, none of them empty.
fn required_names(alloc: Global, children: &[Text]) -> Result<List<Text>, Fault>
    ensures value { Tells result (each required_name children.now) }
    ensures some { IfOk result (All (λ name. name ≢ [])) }
{
    let mut clusters = List::new(alloc);
    for child in children {
        let name = required_name(alloc, child)?;
        clusters.push(name)?;
    }
    Ok(clusters)
}

/// An aggregate of other clusters.
#[tactic(auto, unfolding(crate::specs::ClusterTable::aggregate_shape, proto_discovery::specs::TypeUrls::aggregate_url))]
fn aggregate_shape(alloc: Global, raw: &RawClusterType) -> Result<Shape, Fault>
    ensures value { Tells result (aggregate_shape raw.now) }
    ensures lawful { (name : List ℕ) → IfOk result (IsLawfulShape name) }
{
    demand(raw.name.as_str() == AGGREGATE, Reason::ClusterKind)?;
    let empty = AnyValue::empty(alloc);
    let any = raw.typed_config.as_ref().unwrap_or(&empty);
    demand(any.type_url.as_str() == AGGREGATE_URL, Reason::WrongType)?;
    let children = children(alloc, any.value.as_slice())?;
    demand(!children.is_empty(), Reason::NoClusters)?;
    few(children.len())?;
    let clusters = required_names(alloc, children.as_slice())?;
    Ok(Shape::Aggregate { clusters })
}

/// Whether the endpoints have a name, which they need to have where the cluster's is an `xdstp:` name.
fn is_served(name: &Text, service: &Text) -> bool
    ensures { result ≡ not (is_xdstp name.now && is_nothing service.now) }
{
    !(name.as_str().starts_with("xdstp:") && service.is_empty())
}

/// A cluster whose endpoints are a resource.
#[tactic(auto, unfolding(crate::specs::ClusterTable::eds_shape))]
fn eds_shape(alloc: Global, name: &Text, raw: &RawCluster, discovery: u32) -> Result<Shape, Fault>
    ensures value { Tells result (eds_shape name.now raw.now discovery) }
    ensures lawful { IfOk result (IsLawfulShape name.now) }
{
    demand(discovery == EDS, Reason::ClusterKind)?;
    let absent = RawEds {
        eds_config: None,
        service_name: Text::new(),
    };
    let eds = raw.eds_cluster_config.as_ref().unwrap_or(&absent);
    demand(is_sourced(eds.eds_config), Reason::ConfigSource)?;
    demand(is_served(name, &eds.service_name), Reason::NoName)?;
    demand(raw.lb_policy == ROUND_ROBIN, Reason::LbPolicy)?;
    let service = canonical(alloc, eds.service_name.as_str())?;
    Ok(Shape::Eds { service })
}

/// What the cluster is: an aggregate where it has a type of its own, else one whose endpoints are a resource.
fn shape(alloc: Global, name: &Text, raw: &RawCluster) -> Result<Shape, Fault>
    ensures value { Tells result (shape_of name.now raw.now raw.now.one) }
    ensures lawful { IfOk result (IsLawfulShape name.now) }
{
    match &raw.one {
        None => eds_shape(alloc, name, raw, 0),
        Some(RawClusterOne::Discovery(discovery)) => eds_shape(alloc, name, raw, *discovery),
        Some(RawClusterOne::ClusterType(cluster_type)) => aggregate_shape(alloc, cluster_type),
    }
}

/// The value of a Cluster of this canonical name, or the first reason against it: the name of its type, the type
/// of its configuration, that it can be read, its children, and the name of each; or the discovery type, the
/// source of its endpoints, their name, and the policy.
#[tactic(auto, unfolding(crate::specs::ClusterTable::cluster_value))]
pub fn check_cluster(alloc: Global, name: &Text, raw: &RawCluster) -> Result<ClusterValue, Fault>
    ensures value { Tells result (cluster_value name.now raw.now) }
    ensures lawful { name.now ≢ [] → IfOk result IsLawfulCluster }
{
    let shape = shape(alloc, name, raw)?;
    let name = name.clone()?;
    Ok(ClusterValue { name, shape })
}
