//! The generated session: twelve lines that set a channel up, and rounds of calls by four callers.
#![tactic(auto)]

mod call_lines;
mod first_lines;
mod round_lines;
pub mod session_writing;

pub use session_writing::{session_text, write_session};
