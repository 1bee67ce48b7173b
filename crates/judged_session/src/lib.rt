//! Whether a report is that of a legal history of a session: its turns are played, and what was played is compared with it.
#![tactic(auto)]

mod played_reports;
mod session_book;
pub mod session_judging;
mod split_lanes;
mod trials;

pub use report_replay::Mistake;
pub use session_judging::judge_session;
