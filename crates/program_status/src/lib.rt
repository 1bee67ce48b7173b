//! The commands of the program, and the statuses with which it ends.
#![tactic(auto)]

pub mod commands;
pub mod statuses;

pub use commands::{Command, command_of};
pub use statuses::{Status, read_status, status_of, write_status};
