//! Endpoints and their addresses.
use proto_wire::{Message, WireFault, fields, last_text, last_uint32, read_singular};
use std::alloc::Global;
use xc_base::Text;

/// A SocketAddress: a host and a port.
#[derive(Drop)]
pub struct RawSocket {
    /// The host, numeric where it can be used.
    pub address: Text,
    /// The port.
    pub port_value: u32,
}

/// An Address.
#[derive(Drop)]
pub struct RawAddress {
    pub socket_address: Option<RawSocket>,
}

/// An Endpoint.
#[derive(Drop)]
pub struct RawEndpoint {
    pub address: Option<RawAddress>,
}

/// An LbEndpoint.
#[derive(Drop)]
pub struct RawLbEndpoint {
    pub endpoint: Option<RawEndpoint>,
    /// The number of a HealthStatus.
    pub health_status: u32,
}

impl Message for RawSocket {
    ghost use Rattle.proto_cluster.specs.Endpoint.{socket_of};

    ghost reading = { socket_of };

    #[tactic(auto, unfolding(crate::specs::Endpoint::socket_of))]
    fn read(alloc: Global, bytes: &[u8]) -> Result<RawSocket, WireFault> {
        let list = fields(alloc, bytes)?;
        let address = last_text(alloc, &list, 2)?;
        Ok(RawSocket {
            address,
            port_value: last_uint32(&list, 3),
        })
    }
}

impl Message for RawAddress {
    ghost use Rattle.proto_cluster.specs.Endpoint.{address_of};

    ghost reading = { address_of };

    #[tactic(auto, unfolding(crate::specs::Endpoint::address_of))]
    fn read(alloc: Global, bytes: &[u8]) -> Result<RawAddress, WireFault> {
        let list = fields(alloc, bytes)?;
        let socket_address = read_singular::<RawSocket>(alloc, &list, 1)?;
        Ok(RawAddress { socket_address })
    }
}

impl Message for RawEndpoint {
    ghost use Rattle.proto_cluster.specs.Endpoint.{endpoint_of};

    ghost reading = { endpoint_of };

    #[tactic(auto, unfolding(crate::specs::Endpoint::endpoint_of))]
    fn read(alloc: Global, bytes: &[u8]) -> Result<RawEndpoint, WireFault> {
        let list = fields(alloc, bytes)?;
        let address = read_singular::<RawAddress>(alloc, &list, 1)?;
        Ok(RawEndpoint { address })
    }
}

impl Message for RawLbEndpoint {
    ghost use Rattle.proto_cluster.specs.Endpoint.{lb_endpoint_of};

    ghost reading = { lb_endpoint_of };

    #[tactic(auto, unfolding(crate::specs::Endpoint::lb_endpoint_of))]
    fn read(alloc: Global, bytes: &[u8]) -> Result<RawLbEndpoint, WireFault> {
        let list = fields(alloc, bytes)?;
        let endpoint = read_singular::<RawEndpoint>(alloc, &list, 1)?;
        Ok(RawLbEndpoint {
            endpoint,
            health_status: last_uint32(&list, 2),
        })
    }
}
