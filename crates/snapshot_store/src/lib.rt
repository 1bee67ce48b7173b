//! An archive of values that are read without a lock, by the tickets that pushing them gave.
#![tactic(auto)]

pub mod archive;
pub mod history;

pub use archive::{Archive, Ticket};
pub use history::History;
