//! The bootstrap of an xDS client: the servers, the authorities and the node (gRFC A27, A47).
#![tactic(auto)]

mod authority_entries;
pub mod boot_fault;
pub mod boot_reading;
pub mod bootstrap;
mod members;
mod nodes;
mod servers;

pub use boot_fault::BootFault;
pub use boot_reading::read;
pub use bootstrap::{AuthorityEntry, Bootstrap};
