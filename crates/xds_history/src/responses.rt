//! What responses tell.
use proto_discovery::AnyValue;
use resource_check::Delivery;
use xc_base::{Authority, Kind, List, Text};

/// A response as it was read and checked.
#[derive(Drop)]
pub struct Told {
    pub authority: Authority,
    pub kind: Kind,
    pub version: Text,
    pub nonce: Text,
    pub resources: List<AnyValue>,
    pub parts: List<Delivery>,
}
