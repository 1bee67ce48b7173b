//! The totals of a played session: how many entries, snapshots, starts and picks it has, and how often picks gave each
//! address.
#![tactic(auto)]

pub mod tallies;
pub mod totals_lines;
pub mod totals_writing;

pub use totals_writing::write_totals;
