//! Laws of the last sweep of a legal history of a session.
#![tactic(auto)]

pub mod sweep_laws;

pub use sweep_laws::{sweep_is_last, sweep_is_listed, sweep_stands};
