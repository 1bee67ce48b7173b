//! What comes of each turn of a report that is to be played.
#![tactic(auto)]

pub mod next_turns;

pub use next_turns::{Next, next_after};
pub use report_compare::{Mistake, PlayedPart, Why, compare, compare_until};
