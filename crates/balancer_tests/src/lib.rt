//! Tests of the balancers: each call succeeds with ample memory, and each generic one at a concrete type.
#![tactic(auto)]

#[cfg(test)]
mod priority_tests;
#[cfg(test)]
mod switch_tests;
#[cfg(test)]
mod tree_configs;
#[cfg(test)]
mod tree_tests;
#[cfg(test)]
mod weighted_tests;
