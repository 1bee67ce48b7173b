//! The lines that an entry has in a report: the driver's or a caller's own one, and those of refused patterns,
//! of requests and of the snapshot.
#![tactic(auto)]

pub mod callers;
pub mod driver;
pub mod pick_places;
pub mod report_words;
pub mod request_report;
pub mod snapshot_report;

pub use callers::{cluster_in, push_caller_line};
pub use driver::push_driver_line;
pub use request_report::{push_pattern_line, push_request_line};
pub use snapshot_report::push_snapshot_lines;
