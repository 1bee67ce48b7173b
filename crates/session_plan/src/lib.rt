//! The plan of a session: the events that its driver and each of its callers are to play, in the order of the
//! file, each with its line and with the line that has to end before it.
#![tactic(auto)]

mod actor_plans;
mod caller_events;
mod coming_frames;
mod driver_events;
pub mod plan_laws;
mod readable_payloads;
mod waiting_frames;

pub use actor_plans::plan_session;
pub use plan_laws::{ended_list_is_played, ended_plan_is_listed, plan_is_listed, stream_is_listed};
pub use readable_payloads::is_response;
