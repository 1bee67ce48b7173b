//! Tests of the reading of sessions and of the texts of reports: each call that can answer want of memory
//! succeeds with ample memory.
#![tactic(auto)]

#[cfg(test)]
mod report_tests;
#[cfg(test)]
mod session_tests;
