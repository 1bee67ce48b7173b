//! The localities of a priority by weight, and their endpoints in turn: drop rules (Envoy's
//! ClusterLoadAssignment, gRFC A27), then `weighted_target` and `round_robin`.
#![tactic(auto)]

pub mod pick;
pub mod picker;
pub mod states;

pub use pick::{choose, copy_rules, endpoint, make_picker};
pub use picker::{Chosen, Part, PickBody, Picker};
pub use states::{locality_state, weighted_state};
