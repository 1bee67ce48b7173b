//! Tests of the client's parts: that each call that may want memory succeeds where there is enough, with worked values.
#![tactic(auto)]

#[cfg(test)]
mod ads_stream_tests;
#[cfg(test)]
mod aggregate_expand_tests;
#[cfg(test)]
mod call_journal_tests;
#[cfg(test)]
mod cluster_refs_tests;
#[cfg(test)]
mod dep_manager_tests;
#[cfg(test)]
mod snapshot_store_tests;
#[cfg(test)]
mod text_lists;
#[cfg(test)]
mod watch_timers_tests;
#[cfg(test)]
mod xds_cache_tests;
