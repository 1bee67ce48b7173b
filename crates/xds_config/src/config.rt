//! The configuration of a channel (gRFC A74): its routes, and its clusters with their endpoints.
ghost use Rattle.std.specs.Prelude.{◌≡◌};

use crate::endpoint_values::EndpointValue;
use crate::ordered_clusters::Clusters;
use crate::route_values::RouteValue;
use xc_base::{List, Memory, Reason, Same, Shared, Text};

/// The routes of a channel: the name of its listener, a route configuration, and the place of the
/// channel's virtual host in that configuration, from 0.
#[derive(Drop, PartialEq, Eq)]
pub struct Front {
    pub listener: Text,
    pub routes: Shared<RouteValue>,
    pub host: u32,
}

/// A cluster that isn't an aggregate, with its endpoints or the reason why it has none.
#[derive(Drop, PartialEq, Eq)]
pub struct Leaf {
    pub name: Text,
    pub state: Result<Shared<EndpointValue>, Reason>,
}

/// What a cluster stands for: itself, or, where it is an aggregate, the leaves below it, the preferred
/// ones first (gRFC A37).
#[derive(Drop, PartialEq, Eq)]
pub struct Leaves {
    pub aggregate: bool,
    pub leaves: List<Leaf>,
}

/// A cluster that calls may be sent to, or the reason why they fail.
#[derive(Drop, PartialEq, Eq)]
pub struct ClusterEntry {
    pub name: Text,
    pub state: Result<Shared<Leaves>, Reason>,
}

/// A whole configuration: the front, or the reason why calls have no routes, and the clusters in the
/// order of their names' bytes.
#[derive(Drop)]
pub struct Config {
    pub front: Result<Front, Reason>,
    pub clusters: Clusters,
}

impl Clone for Front {
    ghost is_clone = { λ f g. g ≡ f };

    fn clone(&self) -> Result<Front, Memory> {
        Ok(Front {
            listener: self.listener.clone()?,
            routes: self.routes.share()?,
            host: self.host,
        })
    }
}

impl Clone for Leaf {
    ghost is_clone = { λ l m. m ≡ l };

    fn clone(&self) -> Result<Leaf, Memory> {
        let name = self.name.clone()?;
        match &self.state {
            Ok(value) => {
                let value = value.share()?;
                Ok(Leaf {
                    name,
                    state: Ok(value),
                })
            }
            Err(reason) => Ok(Leaf {
                name,
                state: Err(*reason),
            }),
        }
    }
}

impl Same for Front {
    fn same(&self, other: &Front) -> bool {
        self.host == other.host
            && self.listener.same(&other.listener)
            && self.routes.same(&other.routes)
    }
}

impl Same for Leaf {
    fn same(&self, other: &Leaf) -> bool {
        self.name.same(&other.name) && self.state.same(&other.state)
    }
}

impl Same for Leaves {
    fn same(&self, other: &Leaves) -> bool {
        self.aggregate == other.aggregate && self.leaves.same(&other.leaves)
    }
}

impl Same for ClusterEntry {
    fn same(&self, other: &ClusterEntry) -> bool {
        self.name.same(&other.name) && self.state.same(&other.state)
    }
}
