//! A cluster.
ghost use Rattle.std.specs.Prelude.{◌≡◌, ◌<◌, ◌^◌, length, option_map};
ghost use Rattle.proto_wire.specs.Reading.{Gives};
ghost use Rattle.proto_cluster.specs.Cluster.{cluster_of};
ghost use Rattle.proto_cluster.specs.declared.cluster.RawClusterOne.TheVariants.{ClusterType};

use proto_discovery::AnyValue;
use proto_route::RawConfigSource;
use proto_wire::{
    Member, Message, WireFault, fields, if_set, join_occurrences, last_text, last_uint32,
    occurrences, oneof_of, read_member, read_singular,
};
use std::alloc::Global;
use xc_base::{List, Text};

/// A CustomClusterType.
#[derive(Drop)]
pub struct RawClusterType {
    pub name: Text,
    /// Its configuration, as a message of any type.
    pub typed_config: Option<AnyValue>,
}

/// An EdsClusterConfig.
#[derive(Drop)]
pub struct RawEds {
    /// Where the endpoints come from.
    pub eds_config: Option<RawConfigSource>,
    /// The name of the endpoints' resource, empty where it is that of the cluster.
    pub service_name: Text,
}

/// How the endpoints of a cluster are found.
#[derive(Drop)]
pub enum RawClusterOne {
    /// `type`: the number of a DiscoveryType.
    Discovery(u32),
    /// `cluster_type`: a type of its own, as an aggregate (gRFC A37).
    ClusterType(RawClusterType),
}

/// A Cluster (gRFC A27).
#[derive(Drop)]
pub struct RawCluster {
    pub name: Text,
    /// How its endpoints are found, if a member is set.
    pub one: Option<RawClusterOne>,
    /// How its endpoints are asked for.
    pub eds_cluster_config: Option<RawEds>,
    /// The number of an LbPolicy.
    pub lb_policy: u32,
    /// The bytes of its CircuitBreakers, unread.
    pub circuit_breakers: Option<List<u8>>,
    /// The bytes of its ClusterLoadAssignment, unread.
    pub load_assignment: Option<List<u8>>,
}

impl Message for RawClusterType {
    ghost use Rattle.proto_cluster.specs.Cluster.{cluster_type_of};

    ghost reading = { cluster_type_of };

    #[tactic(auto, unfolding(crate::specs::Cluster::cluster_type_of))]
    fn read(alloc: Global, bytes: &[u8]) -> Result<RawClusterType, WireFault> {
        let list = fields(alloc, bytes)?;
        let name = last_text(alloc, &list, 1)?;
        let typed_config = read_singular::<AnyValue>(alloc, &list, 2)?;
        Ok(RawClusterType { name, typed_config })
    }
}

impl Message for RawEds {
    ghost use Rattle.proto_cluster.specs.Cluster.{eds_of};

    ghost reading = { eds_of };

    #[tactic(auto, unfolding(crate::specs::Cluster::eds_of))]
    fn read(alloc: Global, bytes: &[u8]) -> Result<RawEds, WireFault> {
        let list = fields(alloc, bytes)?;
        let eds_config = read_singular::<RawConfigSource>(alloc, &list, 1)?;
        let service_name = last_text(alloc, &list, 2)?;
        Ok(RawEds {
            eds_config,
            service_name,
        })
    }
}

/// Endpoints that are found by a type of cluster of its own.
fn by_type(cluster_type: Option<RawClusterType>) -> Option<RawClusterOne>
    ensures { result ≡ option_map ClusterType cluster_type }
{
    cluster_type.map(RawClusterOne::ClusterType)
}

impl Message for RawCluster {
    ghost use Rattle.proto_cluster.specs.Cluster.{cluster_of};

    ghost reading = { cluster_of };

    #[tactic(auto, unfolding(crate::specs::Cluster::cluster_of))]
    fn read(alloc: Global, bytes: &[u8]) -> Result<RawCluster, WireFault> {
        let list = fields(alloc, bytes)?;
        let members = occurrences(alloc, &list, &[Member::Varint(2), Member::Bytes(38)])?;
        let set = oneof_of(&members, &[2, 38]);
        let name = last_text(alloc, &list, 1)?;
        let discovery = last_uint32(&list, 2);
        let eds_cluster_config = read_singular::<RawEds>(alloc, &list, 3)?;
        let lb_policy = last_uint32(&list, 6);
        let circuit_breakers = join_occurrences(alloc, &list, 10)?;
        let load_assignment = join_occurrences(alloc, &list, 33)?;
        let cluster_type = read_member::<RawClusterType>(alloc, &members, 38)?;
        let one = if_set(set, 2, RawClusterOne::Discovery(discovery)).or(by_type(cluster_type));
        Ok(RawCluster {
            name,
            one,
            eds_cluster_config,
            lb_policy,
            circuit_breakers,
            load_assignment,
        })
    }
}

/// Reads a Cluster with its messages, but not what its Any holds, nor its circuit breakers and its load
/// assignment, whose bytes it keeps. `At` comes exactly where the bytes, or those of another message that is
/// set in them, are no list of fields, or a listed text isn't UTF-8. In each message the list of its fields
/// comes first, then the listed fields in the order of their numbers; the place is counted from the start of
/// the message in which it lies.
pub fn read_cluster(alloc: Global, bytes: &[u8]) -> Result<RawCluster, WireFault>
    requires { length bytes.now < 2 ^ 32 }
    ensures { Gives (λ cluster. cluster) result (cluster_of bytes.now) }
{
    RawCluster::read(alloc, bytes)
}
