//! The response of a management server.
ghost use Rattle.std.specs.Prelude.{◌<◌, ◌≤◌, ◌^◌, length, All, IfOk};
ghost use Rattle.proto_wire.specs.Reading.{Gives};
ghost use Rattle.proto_discovery.specs.Response.{response_of};

use crate::any::AnyValue;
use proto_wire::{WireFault, fields, last_text, read_repeated};
use std::alloc::Global;
use xc_base::{List, Text};

/// A DiscoveryResponse (Envoy's xDS transport), with the fields that are read.
#[derive(Drop)]
pub struct Response {
    /// The version of its resources.
    pub version: Text,
    /// The nonce by which a request answers it.
    pub nonce: Text,
    /// The type URL of the resources that were asked for.
    pub type_url: Text,
    /// The resources, of which each tells its own type.
    pub resources: List<AnyValue>,
}

/// Reads a DiscoveryResponse. `At` comes exactly where the bytes are no list of fields, a text isn't UTF-8 or
/// a resource can't be read: the list of fields first, then the fields in the order of their numbers, and
/// of a repeated one the first occurrence. In a resource the place is counted from its own start.
#[tactic(auto, unfolding(crate::specs::Response::response_of))]
pub fn read_response(alloc: Global, bytes: &[u8]) -> Result<Response, WireFault>
    requires { length bytes.now < 2 ^ 32 }
    ensures reading { Gives (λ response. response) result (response_of bytes.now) }
    // Each resource has at most as many bytes as the response.
    ensures short { IfOk result (λ response. All (λ any. length any.value ≤ length bytes.now) response.resources) }
{
    let list = fields(alloc, bytes)?;
    let version = last_text(alloc, &list, 1)?;
    let resources = read_repeated::<AnyValue>(alloc, &list, 2)?;
    let type_url = last_text(alloc, &list, 4)?;
    let nonce = last_text(alloc, &list, 5)?;
    Ok(Response {
        version,
        nonce,
        type_url,
        resources,
    })
}
