//! The pattern texts that a report lists as refused behind the first line of an entry, and laws of what is listed there.
#![tactic(auto)]

pub mod listed_laws;
pub mod listing;

pub use listed_laws::{listed_of_entry, listed_of_lines, patterns_end};
pub use listing::listed_patterns;
