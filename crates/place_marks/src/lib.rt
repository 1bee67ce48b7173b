//! Which places of a list are marked, where few are.
#![tactic(auto)]

pub mod marks;

pub use marks::Marks;
