//! Work on threads of their own beside the work of this thread.
#![tactic(auto)]

pub mod crew;

pub use crew::{Crew, work_beside};
