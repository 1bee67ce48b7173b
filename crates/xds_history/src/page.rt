//! What stands after an entry.
use call_journal::Entry;
use cluster_tree::Snapshot;
use xc_base::{Key, List, Reason, Shared, State, Text, Time};
use xds_config::{Config, Leaf, Value};

/// What comes for a key.
#[derive(Drop)]
pub enum Mark {
    /// A valid resource.
    Valid(Value),
    /// An invalid one.
    Invalid(Reason),
    /// Its deletion or expiry.
    Gone,
}

/// A watched key, with what came for it since it is watched, the newest first.
#[derive(Drop)]
pub struct Watched {
    pub key: Key,
    pub marks: List<Mark>,
}

/// A priority of a leaf, with its state.
#[derive(Drop)]
pub struct PriorityState {
    pub leaf: Text,
    pub priority: u32,
    pub state: State,
}

/// A tree at a driver's entry: its leaves, and their priorities with their states at that time.
#[derive(Drop)]
pub struct Glimpse {
    pub leaves: List<Leaf>,
    pub children: List<PriorityState>,
    pub now: Time,
}

/// A tree, with what it was at each driver's entry at which it stood, the newest first.
#[derive(Drop)]
pub struct Tree {
    pub aggregate: bool,
    pub life: List<Glimpse>,
}

/// The trees of a cluster: the one that serves, and the one that waits to.
#[derive(Drop)]
pub struct ClusterTrees {
    pub cluster: Text,
    pub serving: Tree,
    pub waiting: Option<Tree>,
}

/// An entry, and what stands after it.
#[derive(Drop)]
pub struct Page {
    pub entry: Shared<Entry>,
    pub now: Time,
    pub watched: List<Watched>,
    /// The least reached key that is awaited, at a driver's entry.
    pub missing: Option<Key>,
    pub config: Option<Shared<Config>>,
    pub trees: List<ClusterTrees>,
    /// The snapshot that is published at this entry.
    pub snapshot: Option<Shared<Snapshot>>,
}
