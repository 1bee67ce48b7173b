//! What became of each watched resource: its fate, by the order in which valid and invalid deliveries, deletions and
//! expiries came since it is watched (Envoy's xDS protocol, "ACK and NACK", "Deleting Resources" and "Knowing
//! When a Requested Resource Does Not Exist").
#![tactic(auto)]

pub mod cache;
pub mod cache_laws;
pub mod fate;

pub use cache::Cache;
pub use cache_laws::fates_follow_calls;
pub use fate::{Fate, Known};
