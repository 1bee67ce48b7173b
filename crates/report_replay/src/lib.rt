//! The turns that a report names, played on the Book of its session.
#![tactic(auto)]

pub mod replaying;

pub use replay_steps::{Mistake, PlayedPart, compare, compare_until};
pub use replaying::Replay;
pub use turn_player::{Book, Job, Lane, Table};
