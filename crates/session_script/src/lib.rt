//! Written sessions of a channel: the text of a bootstrap, a target, and of what the driver and the callers
//! do, read to data or to the first fault; and what a session lists of the events of each.
#![tactic(auto)]

mod counting;
pub mod script_laws;
pub mod session_reading;

pub use counting::room;
pub use script_laws::{faults_are_in_order, forms_are_listed};
pub use session_lines::{Act, Cause, DriverLine, Line, Session, SessionFault, Work};
pub use session_reading::read_session;
