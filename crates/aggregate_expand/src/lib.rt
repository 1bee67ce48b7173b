//! The clusters that an aggregate stands for (gRFC A37).
#![tactic(auto)]

pub mod expand;
pub mod expand_fault;
mod found;
pub mod leaf_laws;
pub mod lookup;
pub mod visits;

pub use expand::{LONGEST_CHAIN, leaves};
pub use expand_fault::ExpandFault;
pub use leaf_laws::{leaves_are_led_to, leaves_rest_on_chains};
pub use lookup::Lookup;
