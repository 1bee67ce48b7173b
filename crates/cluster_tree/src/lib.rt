//! The balancers of each cluster as one tree, and the snapshots of them (gRFC A37, A56, A74).
#![tactic(auto)]

pub(crate) mod cluster_entries;
pub(crate) mod cluster_merge;
pub(crate) mod cluster_steps;
pub(crate) mod cluster_timers;
pub(crate) mod cluster_trees;
pub(crate) mod cluster_views;
pub mod snapshot;
pub mod tree_laws;
pub(crate) mod tree_switch;
pub mod trees;

pub use snapshot::Snapshot;
pub use tree_steps::{NamedChild, TreeView};
pub use trees::{FollowedViews, NextConfig, Trees, UpdatedViews};
