//! Regular expressions of the kit may cross threads.
#![tactic(auto)]

pub mod regex_laws;

pub use regex_laws::{regex_is_sent, regex_is_shared};
