//! The report of a journal and of the snapshots that it published.
#![tactic(auto)]

pub mod call_holds;
pub mod named_snapshots;
pub mod report_writing;

pub use report_writing::write_report;
