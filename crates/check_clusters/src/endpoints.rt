//! The localities of a ClusterLoadAssignment with the addresses of their endpoints (gRFC A27, Envoy's endpoint API).
ghost use Rattle.std.specs.Prelude.{◌≡◌, ◌<◌, ◌^◌, length, All, IfOk, filter};
ghost use Rattle.xc_base.specs.Addresses.{address_of};
ghost use Rattle.xds_config.specs.Endpoints.{IsLawfulLocality};
ghost use Rattle.check_clusters.specs.Assignments.{addressed, endpoint_address, id_of, is_healthy, is_weighed, locality_of, weight_of};
ghost use Rattle.check_steps.specs.TableSteps.{Tells, each};

use check_steps::check_fault::Fault;
use check_steps::table_steps::few;
use proto_cluster::{RawLbEndpoint, RawLocality, RawLocalityLbEndpoints, RawSocket};
use std::alloc::Global;
use xc_base::{Address, AddressFault, List, Memory, Reason, Text, address_of};
use xds_config::{Locality, LocalityId};

/// The numbers of a health status of endpoints that are used: unknown, and healthy.
const HEALTHY: [u32; 2] = [0, 1];

/// The address of a socket: a numeric host, and a port of 1 to 65,535.
fn socket_address(alloc: Global, socket: &RawSocket) -> Result<Address, Fault>
    ensures { Tells result (addressed (address_of socket.now.address socket.now.port_value)) }
{
    match address_of(alloc, socket.address.as_str(), socket.port_value) {
        Ok(address) => Ok(address),
        Err(AddressFault::NotNumeric) => Err(Fault::because(Reason::Address)),
        Err(AddressFault::Memory) => Err(Fault::Memory),
    }
}

/// The address of an endpoint. One that is absent isn't numeric.
fn endpoint_address(alloc: Global, endpoint: &RawLbEndpoint) -> Result<Address, Fault>
    ensures { Tells result (endpoint_address endpoint.now) }
{
    let Some(endpoint) = &endpoint.endpoint else {
        return Err(Fault::because(Reason::Address));
    };
    let Some(address) = &endpoint.address else {
        return Err(Fault::because(Reason::Address));
    };
    let Some(socket) = &address.socket_address else {
        return Err(Fault::because(Reason::Address));
    };
    socket_address(alloc, socket)
}

/// Whether the endpoint is used: others than healthy ones and those of unknown health are left out.
fn is_healthy(endpoint: &RawLbEndpoint) -> bool
    ensures { result ≡ is_healthy endpoint.now }
{
    let [unknown, healthy] = HEALTHY;
    endpoint.health_status == unknown || endpoint.health_status == healthy
}

/// The addresses of the endpoints that are used.
fn healthy_addresses(alloc: Global, endpoints: &[RawLbEndpoint]) -> Result<List<Address>, Fault>
    ensures { Tells result (each endpoint_address (filter is_healthy endpoints.now)) }
{
    let mut addresses = List::from_vec(Vec::with_capacity(alloc, endpoints.len())?);
    for endpoint in endpoints {
        if !is_healthy(endpoint) {
            continue;
        }
        let address = endpoint_address(alloc, endpoint)?;
        addresses.push(address)?;
    }
    Ok(addresses)
}

/// The name of a locality; one that is absent has three empty texts.
fn locality_id(locality: &Option<RawLocality>) -> Result<LocalityId, Memory>
    ensures { IfOk result (λ id. id ≡ id_of locality.now) }
{
    match locality {
        None => Ok(LocalityId {
            region: Text::new(),
            zone: Text::new(),
            sub_zone: Text::new(),
        }),
        Some(locality) => {
            let region = locality.region.clone()?;
            let zone = locality.zone.clone()?;
            let sub_zone = locality.sub_zone.clone()?;
            Ok(LocalityId {
                region,
                zone,
                sub_zone,
            })
        }
    }
}

/// The weight of a locality, 0 where it is absent.
fn weight(locality: &RawLocalityLbEndpoints) -> u32
    ensures { result ≡ weight_of locality.now }
{
    locality.load_balancing_weight.unwrap_or(0)
}

/// The locality with its addresses.
#[tactic(auto, unfolding(crate::specs::Assignments::locality_of))]
fn locality(alloc: Global, raw: &RawLocalityLbEndpoints) -> Result<Locality, Fault>
    ensures value { Tells result (locality_of raw.now) }
    ensures weight { IfOk result (λ locality. locality.weight ≡ weight_of raw.now) }
    ensures few { IfOk result (λ locality. length locality.addresses < 2 ^ 31) }
{
    let addresses = healthy_addresses(alloc, raw.lb_endpoints.as_slice())?;
    few(addresses.len())?;
    let id = locality_id(&raw.locality)?;
    Ok(Locality {
        id,
        priority: raw.priority,
        weight: weight(raw),
        addresses,
    })
}

/// The localities that have a weight, with their addresses, in the resource's order.
pub fn weighed_localities(
    alloc: Global,
    raws: &[RawLocalityLbEndpoints],
) -> Result<List<Locality>, Fault>
    ensures value { Tells result (each locality_of (filter is_weighed raws.now)) }
    ensures lawful { IfOk result (All IsLawfulLocality) }
{
    let mut localities = List::from_vec(Vec::with_capacity(alloc, raws.len())?);
    for raw in raws {
        if weight(raw) == 0 {
            continue;
        }
        let locality = locality(alloc, raw)?;
        localities.push(locality)?;
    }
    Ok(localities)
}
