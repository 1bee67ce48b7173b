//! What sessions that are read look like: the numbers of their lines, gates, authorities and calls.
#![tactic(auto)]

pub mod shape_laws;

pub use shape_laws::read_is_well_formed;
