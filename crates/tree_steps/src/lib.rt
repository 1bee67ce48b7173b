//! One step of a tree: the children of a cluster's leaves, their states by what endpoints report, their
//! pickers, and a tree after an update (gRFC A37, A56, A74).
#![tactic(auto)]

pub mod leaf_children;
mod list_room;
pub mod pickers;
pub mod reports;
pub mod tree;
pub mod tree_view;
pub mod users;

pub use tree::{NextTree, Tree};
pub use tree_view::{NamedChild, TreeView};
pub use users::Users;
