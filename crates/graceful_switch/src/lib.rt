//! The graceful switch of load balancing policies: what serves goes on until what is to replace it can
//! take over. It is this project's own form of gRPC's graceful switch.
#![tactic(auto)]

pub mod switch;

pub use switch::{Serves, Switch};
