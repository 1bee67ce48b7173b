//! Which clusters calls refer to: those that an open pin names and those that a call holds (gRFC A31, A74).
#![tactic(auto)]

mod counts;
pub mod pins;
pub mod refs;

pub use pins::Pin;
pub use refs::Refs;
