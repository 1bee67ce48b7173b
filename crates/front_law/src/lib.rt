//! The law of the report of a history's first entries: the report of the whole history begins with it.
#![tactic(auto)]

pub mod front_laws;

pub use front_laws::front_is_reported;
pub use report_law::{one_report, write_report};
