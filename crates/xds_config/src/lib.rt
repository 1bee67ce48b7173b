//! The values of the four kinds of resources after their checks, and the configuration that is
//! assembled of them (gRFC A27, A28, A37, A74). Names in them are canonical.
#![tactic(auto)]

pub mod cluster_values;
pub mod config;
pub mod endpoint_values;
pub mod listener_values;
pub mod ordered_clusters;
pub mod ordered_routes;
pub mod path_lengths;
pub mod route_values;
pub mod value;

pub use cluster_values::{ClusterValue, Shape};
pub use config::{ClusterEntry, Config, Front, Leaf, Leaves};
pub use endpoint_values::{EndpointValue, Locality, LocalityId};
pub use listener_values::{ListenerValue, RoutesFrom};
pub use ordered_clusters::Clusters;
pub use ordered_routes::Routes;
pub use path_lengths::LengthTest;
pub use route_values::{Action, Host, PathTest, Route, RouteValue, Weighted};
pub use value::Value;
