//! The lines of a written session: the first four with the bootstrap, the target and the number of callers,
//! and each later one with what the driver or a caller does, read one after another to data or to its first
//! fault.
#![tactic(auto)]

mod authority_search;
mod call_uses;
pub mod cause;
mod fields;
mod forms;
mod line_texts;
pub mod lines;
pub mod reader;
pub mod session;
pub mod session_head;
mod word_values;
mod words;

pub use cause::{Cause, LineFault, SessionFault};
pub use session::{Act, DriverLine, Line, Session, Work};
