//! Tests of callers on threads.
#![tactic(auto)]

#[cfg(test)]
mod holding_gate;
#[cfg(test)]
mod holding_tests;
#[cfg(test)]
mod stranger_tests;
