//! How far the actors of a channel have come: the events of each that have ended, its pins that are up, and the lines
//! that have ended; and what it is to play the listed events of a plan.
#![tactic(auto)]

pub mod counted_journal;
pub mod entry_counts;
pub mod progress;
pub mod progress_laws;

pub use counted_journal::CountedJournal;
pub use progress::Progress;
