//! The messages of a Cluster and of a ClusterLoadAssignment, by Envoy's cluster and endpoint APIs, read by field
//! number: a struct for each message, with its listed fields as they stand. Nothing of their content is
//! judged here.
#![tactic(auto)]

pub mod aggregate;
pub mod assignment;
pub mod cluster;
pub mod endpoint;
pub mod locality;

pub use aggregate::read_aggregate;
pub use assignment::{RawAssignment, RawDrop, RawPolicy, read_assignment};
pub use cluster::{RawCluster, RawClusterOne, RawClusterType, RawEds, read_cluster};
pub use endpoint::{RawAddress, RawEndpoint, RawLbEndpoint, RawSocket};
pub use locality::{RawLocality, RawLocalityLbEndpoints};
