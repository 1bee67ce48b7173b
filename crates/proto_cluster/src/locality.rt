//! The endpoints of a locality.
use crate::endpoint::RawLbEndpoint;
use proto_wire::{
    Message, WireFault, fields, last_text, last_uint32, read_repeated, read_singular,
};
use std::alloc::Global;
use xc_base::{List, Text};

/// A Locality: where endpoints run.
#[derive(Drop)]
pub struct RawLocality {
    pub region: Text,
    pub zone: Text,
    pub sub_zone: Text,
}

/// A LocalityLbEndpoints: the endpoints of one locality.
#[derive(Drop)]
pub struct RawLocalityLbEndpoints {
    pub locality: Option<RawLocality>,
    pub lb_endpoints: List<RawLbEndpoint>,
    /// Its weight among the localities of its priority, none where it is absent.
    pub load_balancing_weight: Option<u32>,
    /// Its priority, of which 0 is tried first.
    pub priority: u32,
}

impl Message for RawLocality {
    ghost use Rattle.proto_cluster.specs.Locality.{locality_of};

    ghost reading = { locality_of };

    #[tactic(auto, unfolding(crate::specs::Locality::locality_of))]
    fn read(alloc: Global, bytes: &[u8]) -> Result<RawLocality, WireFault> {
        let list = fields(alloc, bytes)?;
        let region = last_text(alloc, &list, 1)?;
        let zone = last_text(alloc, &list, 2)?;
        let sub_zone = last_text(alloc, &list, 3)?;
        Ok(RawLocality {
            region,
            zone,
            sub_zone,
        })
    }
}

impl Message for RawLocalityLbEndpoints {
    ghost use Rattle.proto_cluster.specs.Locality.{locality_endpoints_of};

    ghost reading = { locality_endpoints_of };

    #[tactic(auto, unfolding(crate::specs::Locality::locality_endpoints_of))]
    fn read(alloc: Global, bytes: &[u8]) -> Result<RawLocalityLbEndpoints, WireFault> {
        let list = fields(alloc, bytes)?;
        let locality = read_singular::<RawLocality>(alloc, &list, 1)?;
        let lb_endpoints = read_repeated::<RawLbEndpoint>(alloc, &list, 2)?;
        let load_balancing_weight = read_singular::<u32>(alloc, &list, 3)?;
        Ok(RawLocalityLbEndpoints {
            locality,
            lb_endpoints,
            load_balancing_weight,
            priority: last_uint32(&list, 5),
        })
    }
}
