//! Sessions that are played on a Book by one thread, in the order of the file.
#![tactic(auto)]

pub mod player_laws;
mod script;
pub mod session_playing;
pub mod shared_events;
mod stage;

pub use player_laws::end_is_legal;
pub use session_playing::{Played, play};
pub use shared_events::{ends, shared_event};
pub use xds_book::{Book, BookFault, Job, Lane, Pinned};
