//! The law of the generated session: its text spells the session that it lists.
#![tactic(auto)]

pub mod generated_laws;

pub use generated_laws::generated_spells;
