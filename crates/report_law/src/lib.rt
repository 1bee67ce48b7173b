//! The laws of what is written of a journal: of a right history's journal the report of the history, or its totals.
#![tactic(auto)]

pub mod report_laws;

pub use report_laws::{one_report, one_totals};
pub use report_writer::write_report;
