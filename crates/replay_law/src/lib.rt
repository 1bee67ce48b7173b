//! The law of entries that are made where a report is judged: each is the legal history's own.
#![tactic(auto)]

pub mod replay_laws;

pub use replay_laws::replayed_is_one;
