//! What the state of a channel keeps of the trees of its clusters: the states that addresses reported last, the time, and the
//! trees with what is seen of them (gRFC A56, A37, A74). Each call's clause says what it makes of them in the words of the
//! whole history.
#![tactic(auto)]

pub mod due_numbers;
pub mod reported_laws;
pub mod reported_trees;

pub use reported_trees::ReportedTrees;
pub use xds_history::Prepared;
