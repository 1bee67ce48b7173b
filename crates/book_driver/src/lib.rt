//! What a driver's event does to a channel (Envoy's xDS transport, gRFC A27, A47, A56, A74): the streams, what is known of the
//! watched keys, what is reached by them and asked for, the configuration and its trees, and whether a snapshot is due. Each
//! call's clause says what it makes of them in the words of the whole history.
#![tactic(auto)]

pub mod call_refs;
pub mod channel_driver;
pub mod configured_trees;
pub mod driver_laws;
pub mod key_renewal;
pub mod marking;
pub mod subscriptions;
pub mod watcher;

pub use call_refs::CallRefs;
pub use channel_driver::{Driver, Stepped};
pub use configured_trees::{ConfiguredTrees, Published};
pub use key_renewal::Renewal;
pub use subscriptions::{Settled, Subscriptions};
pub use watcher::Watcher;
