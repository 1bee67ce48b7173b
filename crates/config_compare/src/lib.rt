//! Whether two configurations have the same clusters, by marks of those that may differ.
#![tactic(auto)]

pub mod marked_clusters;

pub use marked_clusters::{are_same_clusters, have_same_names};
