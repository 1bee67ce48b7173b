//! Sessions that are played on a Book by one thread, in the order of turns that is told.
#![tactic(auto)]

pub mod due_events;
pub mod lane_seats;
mod seat_steps;
mod turn_places;
pub mod turn_playing;

pub use lane_seats::Seat;
pub use session_player::{Book, Job, Lane};
pub use turn_playing::Table;
pub use turn_steps::Halt;
