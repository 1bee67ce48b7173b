//! Laws of texts that have their first lines in common with the report of a history.
#![tactic(auto)]

pub mod alike_laws;

pub use alike_laws::{alike_parts, first_lines_stand, front_is_written};
