//! Histories in which each actor has played its list of the plan of a session are legal histories of the session.
#![tactic(auto)]

pub mod plan_legality;

pub use plan_legality::{ended_plan_is_legal, plays_are_started};
