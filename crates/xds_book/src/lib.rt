//! The one object that the driver and the callers of a channel act on: the journal of all that they did, of which each reply
//! is the right one on the entries before it, and what is kept so that no step walks through it.
#![tactic(auto)]

pub mod book_faults;
pub mod call_steps;
pub mod channel_book;
pub mod driver_steps;
pub mod jobs;
mod lane_entries;
pub mod lanes;
pub mod pinned_calls;
mod refused_texts;

pub use book_faults::BookFault;
pub use channel_book::Book;
pub use jobs::Job;
pub use lanes::Lane;
pub use pinned_calls::Pinned;
