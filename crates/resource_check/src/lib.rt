//! The check of a resource: a checked value, or the first reason against it (gRFC A27, A28, A37, A47), by
//! tables of checks that stand as definitions. Each step of a table is a function that tells what the step says.
#![tactic(auto)]

pub mod checks;
pub mod delivery;
pub mod preparation;
pub mod raw;
pub mod resource;

pub use check_steps::{Asked, CheckFault, Fault, Halt, Refusal, Stop};
pub use checks::{check, check_or_halt};
pub use delivery::{Delivery, Prepared, Reading};
pub use preparation::prepare;
pub use raw::{Found, Raw, read_raw};
pub use resource::Checked;
