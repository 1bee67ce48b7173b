//! Events of the driver, prepared with the pattern texts that a report lists as refused.
#![tactic(auto)]

pub mod prepared_events;

pub use prepared_events::{Coming, prepare_event};
