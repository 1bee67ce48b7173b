//! What is published.
use block_list::BlockList;
use tree_text::ShownTree;
use xc_base::{Reason, Shared};
use xds_config::Config;

/// What is published at once: a whole configuration, and the trees of its clusters in their order (gRFC
/// A74).
#[derive(Drop)]
pub struct Snapshot {
    /// Snapshots are numbered from 1.
    pub number: u32,
    /// The configuration.
    pub config: Shared<Config>,
    /// What is seen of each cluster's trees, or the reason why the cluster has none.
    pub trees: BlockList<Result<Shared<ShownTree>, Reason>>,
}
