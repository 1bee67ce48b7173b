//! The checks of clusters and of their endpoints, by tables that stand as definitions (gRFC A27, A37, A47, A56, Envoy's
//! cluster and endpoint API).
#![tactic(auto)]

pub mod assignment_check;
pub mod cluster_check;
mod endpoints;
mod localities;

pub use assignment_check::check_assignment;
pub use cluster_check::check_cluster;
