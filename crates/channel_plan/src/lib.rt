//! Laws of the plan of a session that is played on a channel.
#![tactic(auto)]

pub mod channel_plan_laws;

pub use channel_calls::{have_played_all, is_last_sweep, next_listed};
pub use channel_plan_laws::{gates_are_open, plan_is_for_a_channel};
pub use session_player::{Book, BookFault, Job, Lane, Played, ends, play, shared_event};
