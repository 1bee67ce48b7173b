//! The law of a call's cluster: each snapshot from a call's pin to its commit has it.
#![tactic(auto)]

pub mod course_laws;

pub use course_laws::{clusters_kept, holds_have_pins};
