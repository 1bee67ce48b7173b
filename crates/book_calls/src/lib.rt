//! What the state of a channel keeps of calls: open pins, the clusters that calls hold, and the tickets of the snapshots that
//! were published (gRFC A31, A74). Each call's clause says what it makes of them in the words of the whole history.
#![tactic(auto)]

pub mod calls;
pub mod calls_laws;
pub mod host_clusters;
pub mod latest_snapshot;
pub mod own_routes;
pub mod pinning;
pub mod ref_steps;

pub use calls::Calls;
pub use latest_snapshot::Latest;
pub use own_routes::{TicketRoute, own_route};
pub use pinning::Pinning;
pub use xds_history::Prepared;
