//! The next steps of actors, each made on a Book by one thread where the line that gates it has ended.
#![tactic(auto)]

pub mod gated_steps;
pub mod halts;

pub use channel_calls::{GatedLine, has_to_wait, next_listed};
pub use gated_steps::{commit, drive, hold, pick, pin};
pub use halts::Halt;
pub use listed_events::{Coming, prepare_event};
