//! The Book of a channel whose threads have ended: it is tested, the last sweep is made, and the history that it holds is given.
#![tactic(auto)]

pub mod book_report;
pub mod stops;

pub use book_report::ClosedBook;
pub use channel_plan::{Job, Lane, Played, ends, play, shared_event};
pub use stops::Stop;
