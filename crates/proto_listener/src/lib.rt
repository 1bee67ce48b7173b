//! The messages of a Listener, by Envoy's listener API, read by field number: a struct for each message, with
//! its listed fields as they stand. Nothing of their content is judged here.
#![tactic(auto)]

pub mod listener;
pub mod manager;

pub use listener::{RawApiListener, RawListener, read_listener};
pub use manager::{RawManager, RawManagerOne, RawRds, read_manager};
