//! The Book's steps, from any thread: one lock round the Book, in whose holding a step waits for the line that gates it and is
//! made.
#![tactic(auto)]

pub mod call_gate;
pub mod channel_faults;
pub mod event_checks;
mod line_waits;
mod locked_book;
pub mod locked_channel;
mod sleepers;

pub use call_gate::Gate;
pub use channel_faults::{ChanFault, First};
pub use lane_checks::{
    Book, BookFault, GatedLine, Job, Lane, Pinned, has_to_wait, have_played_all, is_last_sweep,
    next_listed,
};
pub use locked_channel::Channel;
