//! Laws of how what has been played of a session's plan is played on.
#![tactic(auto)]

pub mod completion_laws;

pub use completion_laws::{always_goes_on, each_has_legal_history, legal_so_far_begins_legal};
