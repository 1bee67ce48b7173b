//! What a response delivers.
use xc_base::{Kind, List, Reason, Shared, Text};
use xds_config::Value;

/// A resource of a response: its name, where one is known, and its value or the reason against it.
#[derive(Drop)]
pub struct Delivery {
    pub name: Option<Text>,
    pub result: Result<Value, Reason>,
}

/// What the payload of a response says.
#[derive(Drop)]
pub enum Reading {
    /// It is no DiscoveryResponse.
    Unreadable,
    /// The kind of its type URL, with its resources in their order. Of a type that is none of the four kinds no
    /// resource is checked, and `parts` is empty.
    Read {
        kind: Option<Kind>,
        version: Text,
        nonce: Text,
        parts: List<Delivery>,
    },
}

/// A payload with its reading, and the pattern texts that were refused when its resources were checked: those at which
/// their checks stopped, each once, in the order in which the checks came to them.
#[derive(Drop)]
pub struct Prepared {
    pub payload: Shared<List<u8>>,
    pub reading: Reading,
    pub refused: List<Text>,
}
