//! When timers of clusters' trees end, so that what is due at a time is found without a look at the others.
#![tactic(auto)]

pub mod timer_ends;

pub use timer_ends::{TimerEnd, TimerEnds};
