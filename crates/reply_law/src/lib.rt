//! Laws of the replies that there are: each event has a right one, whatever came before it.
#![tactic(auto)]

pub mod reply_laws;

pub use reply_laws::{each_has_reply, pin_gets_latest};
