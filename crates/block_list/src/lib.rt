//! Lists in blocks of members, which several lists share where their members are the same ones.
#![tactic(auto)]

pub mod block_list;
pub mod list_filling;

pub use block_list::{BLOCK_SIZE, BlockList};
pub use list_filling::in_blocks;
