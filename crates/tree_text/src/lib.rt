//! The text of a cluster's trees in a report, and what is seen of them with that text.
#![tactic(auto)]

pub mod escapes;
pub mod shown_tree;
pub mod tree_words;

pub use escapes::push_escaped;
pub use shown_tree::ShownTree;
pub use tree_words::state_word;
