//! Sessions that are played on a channel: the driver and each caller on a thread of its own.
#![tactic(auto)]

mod driver_part;
mod fault_stops;
mod growing_patterns;
mod players;
mod seats;
pub mod session_channel;
pub mod threaded_playing;

pub use channel_crossing::Gate;
pub use closed_book::{Played, shared_event};
pub use session_channel::begin_channel;
pub use threaded_playing::play_on_threads;
