//! Laws of what fixes an entry over a past, by which the entries that a journal makes are those of a legal history.
#![tactic(auto)]

pub mod entry_laws;

pub use entry_laws::{next_is_one, one_entry, one_next_step};
