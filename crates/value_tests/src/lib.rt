//! Tests of the crates on which values rest: choice by weight, header rules, the bootstrap, names and
//! configurations. Each public call that can answer want of memory is called once with ample memory, and
//! `proofs` has rows that are computed by the definitions alone.
#![tactic(auto)]

#[cfg(test)]
mod fault_text_tests;
#[cfg(test)]
mod header_match_tests;
#[cfg(test)]
mod weight_pick_tests;
#[cfg(test)]
mod xds_bootstrap_tests;
#[cfg(test)]
mod xds_config_tests;
#[cfg(test)]
mod xds_name_tests;
