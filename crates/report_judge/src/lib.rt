//! Reports of sessions are judged, from the bytes of both.
#![tactic(auto)]

pub mod judging;
pub mod verdicts;

pub use judging::judge;
pub use verdicts::Verdict;
