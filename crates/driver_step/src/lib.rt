//! The step of a history that a driver's event makes, as laws over its pieces (Envoy's xDS transport, gRFC A74): what is
//! reached, awaited and configured, and the reply, give the next entry with its page; and where what is watched is settled,
//! a report of an endpoint's state or a sweep changes nothing of it.
#![tactic(auto)]

pub mod step_laws;

pub use book_fates::{Answered, Fates, Reached};
pub use book_streams::Streams;
