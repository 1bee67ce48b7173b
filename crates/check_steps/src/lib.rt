//! What the checks of all kinds of resources share (gRFC A27, A28, Envoy's xDS transport): why a check stops, the pattern
//! texts of a response, names, fractions, sources, and the steps of tables of checks.
#![tactic(auto)]

pub mod asked;
pub mod check_fault;
pub mod fractions;
pub mod resource_names;
pub mod sources;
pub mod table_steps;

pub use asked::Asked;
pub use check_fault::{CheckFault, Fault, Halt, Refusal, Stop};
