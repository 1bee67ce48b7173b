//! What the state of a channel keeps of the keys that are watched: what is known of each, and the timer of each one that is
//! waited for (Envoy's xDS transport, gRFC A47, A74). Each call's clause says what it makes of them in the words of the whole
//! history.
#![tactic(auto)]

pub mod answered;
pub mod fates;
pub mod fates_laws;
pub mod key_set;
pub mod kind_ranges;
pub mod part_names;
pub mod part_tests;
pub mod timed_fates;
pub mod timing;

pub use answered::Answered;
pub use part_names::PartNames;
pub use timed_fates::{Fates, Reached};
pub use xds_history::{Delivery, Prepared, Reading};
