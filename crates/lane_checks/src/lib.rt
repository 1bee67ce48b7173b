//! What a Book and a plan say of lanes: whether a lane's next step can be made, what is listed next for it, and whether all that
//! is listed was played.
#![tactic(auto)]

pub mod ended_lanes;
pub mod lane_gates;
pub mod next_events;

pub use ended_lanes::have_played_all;
pub use lane_gates::{Difference, GatedLine, find_difference, has_to_wait};
pub use next_events::{is_last_sweep, next_listed};
pub use xds_book::{Book, BookFault, Job, Lane, Pinned};
