//! The text of a report: its first line, what each entry of a journal prints, and its last line.
#![tactic(auto)]

pub mod entry_report;
pub mod report;

pub use entry_report::push_entry;
pub use report::{head_line, push_end_line};
