//! Laws of the calls of a history that plays a plan, and of how many entries it has: what the next step of an actor finds.
#![tactic(auto)]

pub mod planned_call_laws;

pub use planned_call_laws::{next_has_room, next_hold_is_up, next_start_is_new};
