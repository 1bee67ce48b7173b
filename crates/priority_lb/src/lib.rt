//! The children of the `priority_experimental` load balancing policy (gRFC A56).
#![tactic(auto)]

pub mod child_laws;
pub mod children;
pub(crate) mod facts;
pub mod view;

pub use children::Children;
pub use view::ChildView;
