//! What a channel's configuration is made of (gRFC A74, A37): the keys that are reached from its listener, the front,
//! and the clusters with their leaves. The dependency manager puts them together.
#![tactic(auto)]

pub mod assemble;
pub mod front;
pub mod ordered;
pub mod reach;
pub mod shared_keys;
pub mod sight;
pub mod table;
pub mod watching;

pub use shared_keys::SharedKeys;
pub use sight::Sight;
pub use table::Table;
