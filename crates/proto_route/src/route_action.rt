//! Where the calls of a route go.
ghost use Rattle.std.specs.Prelude.{◌≡◌, option_map};
ghost use Rattle.proto_route.specs.declared.route_action.RawRouteActionOne.TheVariants.{WeightedClusters};

use proto_wire::{
    Member, Message, WireFault, fields, if_set, last_text, occurrences, oneof_of, read_member,
    read_repeated, read_singular,
};
use std::alloc::Global;
use xc_base::{List, Text};

/// A ClusterWeight.
#[derive(Drop)]
pub struct RawClusterWeight {
    /// The name of the cluster.
    pub name: Text,
    /// Its weight among the others, none where it is absent.
    pub weight: Option<u32>,
}

/// A WeightedCluster.
#[derive(Drop)]
pub struct RawWeightedCluster {
    /// The clusters in the order of the message.
    pub clusters: List<RawClusterWeight>,
}

/// Where calls go.
#[derive(Drop)]
pub enum RawRouteActionOne {
    /// To the cluster of this name.
    Cluster(Text),
    /// To the cluster that this header names.
    ClusterHeader(Text),
    /// To one of these clusters.
    WeightedClusters(RawWeightedCluster),
}

/// A RouteAction.
#[derive(Drop)]
pub struct RawRouteAction {
    /// Where the calls go, if a listed member is set.
    pub one: Option<RawRouteActionOne>,
}

impl Message for RawClusterWeight {
    ghost use Rattle.proto_route.specs.RouteAction.{cluster_weight_of};

    ghost reading = { cluster_weight_of };

    #[tactic(auto, unfolding(crate::specs::RouteAction::cluster_weight_of))]
    fn read(alloc: Global, bytes: &[u8]) -> Result<RawClusterWeight, WireFault> {
        let list = fields(alloc, bytes)?;
        let name = last_text(alloc, &list, 1)?;
        let weight = read_singular::<u32>(alloc, &list, 2)?;
        Ok(RawClusterWeight { name, weight })
    }
}

impl Message for RawWeightedCluster {
    ghost use Rattle.proto_route.specs.RouteAction.{weighted_cluster_of};

    ghost reading = { weighted_cluster_of };

    #[tactic(auto, unfolding(crate::specs::RouteAction::weighted_cluster_of))]
    fn read(alloc: Global, bytes: &[u8]) -> Result<RawWeightedCluster, WireFault> {
        let list = fields(alloc, bytes)?;
        let clusters = read_repeated::<RawClusterWeight>(alloc, &list, 1)?;
        Ok(RawWeightedCluster { clusters })
    }
}

/// The choice among weighted clusters.
fn to_weighted(clusters: Option<RawWeightedCluster>) -> Option<RawRouteActionOne>
    ensures { result ≡ option_map WeightedClusters clusters }
{
    clusters.map(RawRouteActionOne::WeightedClusters)
}

impl Message for RawRouteAction {
    ghost use Rattle.proto_route.specs.RouteAction.{route_action_of};

    ghost reading = { route_action_of };

    #[tactic(auto, unfolding(crate::specs::RouteAction::route_action_of))]
    fn read(alloc: Global, bytes: &[u8]) -> Result<RawRouteAction, WireFault> {
        let list = fields(alloc, bytes)?;
        let members = occurrences(
            alloc,
            &list,
            &[Member::Bytes(1), Member::Bytes(2), Member::Bytes(3)],
        )?;
        let set = oneof_of(&members, &[1, 2, 3]);
        let cluster = last_text(alloc, &list, 1)?;
        let cluster_header = last_text(alloc, &list, 2)?;
        let weighted_clusters = read_member::<RawWeightedCluster>(alloc, &members, 3)?;
        let one = if_set(set, 1, RawRouteActionOne::Cluster(cluster))
            .or(if_set(set, 2, RawRouteActionOne::ClusterHeader(cluster_header)))
            .or(to_weighted(weighted_clusters));
        Ok(RawRouteAction { one })
    }
}
