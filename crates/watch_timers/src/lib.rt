//! How long resources have been waited for. A resource that doesn't come within 15 seconds is taken to be
//! absent (Envoy's xDS protocol, "Knowing When a Requested Resource Does Not Exist").
#![tactic(auto)]

pub mod timer_laws;
pub mod timers;

pub use timer_laws::timers_run_as_started;
pub use timers::{Started, Timers};
