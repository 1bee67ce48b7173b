//! Tests of the checks of resources: of what no clause says, that each public call succeeds with ample memory.
#![tactic(auto)]

#[cfg(test)]
mod resource_tests;
