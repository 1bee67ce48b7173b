//! The law of the pattern texts that a legal history's report lists: those that its entries refused.
#![tactic(auto)]

pub mod listed_laws;

pub use listed_laws::listed_of_legal;
