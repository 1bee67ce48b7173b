//! Choice by weight: fractions of calls, the drop rules that are made of them, and cumulated weights.
#![tactic(auto)]

pub mod choice;
pub mod fraction;
pub mod weight_fault;

pub use choice::{at_weight, cumulate, fraction_met};
pub use fraction::{DropRule, Fraction};
pub use weight_fault::WeightFault;
