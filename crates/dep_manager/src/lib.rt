//! The dependency manager: which resources a channel watches, and the whole configuration that they make
//! (gRFC A74, A37).
#![tactic(auto)]

pub mod block_renewal;
pub mod config_renewal;
pub mod deps;
pub mod deps_laws;
pub mod endpoint_news;
pub mod entry_renewal;
pub mod kept_assembly;
pub mod kept_roots;
pub mod leaf_sources;
pub mod mark_sets;

pub use deps::{Deps, Outcome};
pub use deps_laws::{fates_of_reached_keys_decide, reached_by_chains};
