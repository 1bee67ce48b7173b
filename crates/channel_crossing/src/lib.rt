//! A channel, and what its threads hold, may cross threads.
#![tactic(auto)]

pub mod crossing_laws;

pub use channel_calls::{ChanFault, Channel, First, Gate, next_listed};
pub use crossing_laws::{
    channel_is_sent, channel_is_shared, lane_is_sent, snapshot_is_sent, snapshot_is_shared,
};
