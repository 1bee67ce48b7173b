//! What is seen of a child.
use xc_base::State;

/// A child of a priority balancer as it is seen (gRFC A56).
#[derive(Clone, Copy, PartialEq, Eq)]
pub struct ChildView {
    /// Whether it exists.
    pub there: bool,
    /// Its state, whether it exists or not.
    pub state: State,
    /// Whether its failover timer runs.
    pub pending: bool,
    /// Whether it is out of use.
    pub unused: bool,
}
