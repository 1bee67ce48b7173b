//! The value of an Endpoint resource (gRFC A27, A56).
use weight_pick::DropRule;
use xc_base::{Address, List, Same, Text};

/// The endpoints of a cluster by their localities, and the rules by which calls are dropped, in the
/// order in which they are tried. Localities stand in ascending priority.
#[derive(Debug, Drop, PartialEq, Eq)]
pub struct EndpointValue {
    pub name: Text,
    pub localities: List<Locality>,
    pub drops: List<DropRule>,
}

/// A locality with its endpoints. Priority 0 is the preferred one, and the weight is at least 1. An
/// address may stand there twice.
#[derive(Debug, Drop, PartialEq, Eq)]
pub struct Locality {
    pub id: LocalityId,
    pub priority: u32,
    pub weight: u32,
    pub addresses: List<Address>,
}

/// The name of a locality, of which each part may be empty.
#[derive(Clone, Debug, Drop, PartialEq, Eq)]
pub struct LocalityId {
    pub region: Text,
    pub zone: Text,
    pub sub_zone: Text,
}

impl Same for EndpointValue {
    fn same(&self, other: &EndpointValue) -> bool {
        self.name.same(&other.name)
            && self.localities.same(&other.localities)
            && self.drops.same(&other.drops)
    }
}

impl Same for Locality {
    fn same(&self, other: &Locality) -> bool {
        self.priority == other.priority
            && self.weight == other.weight
            && self.id.same(&other.id)
            && self.addresses.same(&other.addresses)
    }
}

impl Same for LocalityId {
    fn same(&self, other: &LocalityId) -> bool {
        self.region.same(&other.region)
            && self.zone.same(&other.zone)
            && self.sub_zone.same(&other.sub_zone)
    }
}
