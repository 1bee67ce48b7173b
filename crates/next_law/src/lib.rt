//! Laws of what comes next in a legal history of a session, and of its end.
#![tactic(auto)]

pub mod next_laws;

pub use next_laws::{end_of_legal, next_of_legal};
