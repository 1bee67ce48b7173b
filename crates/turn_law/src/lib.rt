//! The laws of what is read from a report: the entries of a history are read one after another, its turns are those of its
//! entries, and each legal history is one of turns.
#![tactic(auto)]

pub mod turn_laws;

pub use turn_laws::{entries_in_turn, legal_are_turns, turns_of_report};
