//! Sessions that bytes spell, as they are played: well formed ones.
#![tactic(auto)]

pub mod well_formed_input;

pub use well_formed_input::{generated_input, session_in};
