//! What a driver's event says to the state of a channel: its verdict, the pattern texts that are refused at it, and the
//! answered response that it brings (Envoy's xDS transport, "ACK and NACK"). Each clause says it in the words of the whole
//! history.
#![tactic(auto)]

pub mod event_hearing;
pub mod judging;

pub use event_hearing::{Heard, hear};
