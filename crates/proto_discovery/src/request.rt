//! The request to a management server.
ghost use Rattle.std.specs.Prelude.{◌≡◌, ◌++◌, OnOk, OnErr};
ghost use Rattle.proto_discovery.specs.Request.{locality_field, feature_fields, spelled_node, node_field, spelled_status, error_field, name_fields, spelled_request};

use crate::type_urls::type_url;
use proto_wire::{put_bytes, put_text, put_uint};
use std::alloc::Global;
use xc_base::{Kind, List, Memory, Node, Shared, Text};

/// The feature that says that the client ignores overprovisioning factors.
const NO_OVERPROVISIONING: &str = "envoy.lb.does_not_support_overprovisioning";

/// The feature that says that the client takes resources in wrappers.
const RESOURCE_IN_SOTW: &str = "xds.config.resource-in-sotw";

/// The code of a refusal, INVALID_ARGUMENT of google.rpc.Code.
const INVALID_ARGUMENT: u64 = 3;

/// A DiscoveryRequest (Envoy's xDS transport): it asks for names of a kind, and answers the last response.
#[derive(Clone, Drop, PartialEq, Eq)]
pub struct Request {
    /// The kind of the resources that are asked for.
    pub kind: Kind,
    /// The last version that was accepted, empty before the first.
    pub version: Text,
    /// The nonce of the response that is answered, empty before the first.
    pub nonce: Text,
    /// The names of the resources that are asked for.
    pub names: Shared<List<Text>>,
    /// The client's node, which a stream's first request has.
    pub node: Option<Node>,
    /// Why the response is refused, where it is (NACK).
    pub error: Option<Text>,
}

/// Adds the locality of a node, unless its three texts are empty.
#[tactic(auto, unfolding(crate::specs::Request::locality_field, crate::specs::Request::spelled_locality))]
fn put_locality(alloc: Global, out: &mut List<u8>, node: &Node) -> Result<(), Memory>
    ensures { OnOk result (out.new ≡ out.old ++ locality_field node.now) }
{
    if node.region.is_empty() && node.zone.is_empty() && node.sub_zone.is_empty() {
        return Ok(());
    }
    let mut locality = List::new(alloc);
    put_text(alloc, &mut locality, 1, node.region.as_str())?;
    put_text(alloc, &mut locality, 2, node.zone.as_str())?;
    put_text(alloc, &mut locality, 3, node.sub_zone.as_str())?;
    put_bytes(alloc, out, 4, locality.as_slice())
}

/// Adds what the client can do.
#[tactic(auto, unfolding(crate::specs::Request::feature_fields))]
fn put_features(alloc: Global, out: &mut List<u8>) -> Result<(), Memory>
    ensures { OnOk result (out.new ≡ out.old ++ feature_fields) }
{
    put_bytes(alloc, out, 10, NO_OVERPROVISIONING.as_bytes())?;
    put_bytes(alloc, out, 10, RESOURCE_IN_SOTW.as_bytes())
}

/// Adds the fields of a node.
#[tactic(auto, unfolding(crate::specs::Request::spelled_node))]
fn put_node_fields(alloc: Global, out: &mut List<u8>, node: &Node) -> Result<(), Memory>
    ensures { OnOk result (out.new ≡ out.old ++ spelled_node node.now) }
{
    put_text(alloc, out, 1, node.id.as_str())?;
    put_text(alloc, out, 2, node.cluster.as_str())?;
    put_locality(alloc, out, node)?;
    put_features(alloc, out)
}

/// Adds the client's node, if it is written.
fn put_node(alloc: Global, out: &mut List<u8>, node: &Option<Node>) -> Result<(), Memory>
    ensures { OnOk result (out.new ≡ out.old ++ node_field node.now) }
{
    match node {
        None => Ok(()),
        Some(node) => {
            let mut body = List::new(alloc);
            put_node_fields(alloc, &mut body, node)?;
            put_bytes(alloc, out, 2, body.as_slice())
        }
    }
}

/// Adds the names, each as a field of its own.
fn put_names(alloc: Global, out: &mut List<u8>, names: &List<Text>) -> Result<(), Memory>
    ensures { OnOk result (out.new ≡ out.old ++ name_fields names.now) }
{
    for name in names.as_slice() {
        put_bytes(alloc, out, 3, name.as_str().as_bytes())?;
    }
    Ok(())
}

/// Adds the text of a refusal, if there is one.
#[tactic(auto, unfolding(crate::specs::Request::spelled_status))]
fn put_error(alloc: Global, out: &mut List<u8>, error: &Option<Text>) -> Result<(), Memory>
    ensures { OnOk result (out.new ≡ out.old ++ error_field error.now) }
{
    let Some(message) = error else {
        return Ok(());
    };
    let mut status = List::new(alloc);
    put_uint(alloc, &mut status, 1, INVALID_ARGUMENT)?;
    put_text(alloc, &mut status, 2, message.as_str())?;
    put_bytes(alloc, out, 6, status.as_slice())
}

/// Adds the request's fields, in the order of their numbers.
#[tactic(auto, unfolding(crate::specs::Request::spelled_request))]
fn put_request(alloc: Global, out: &mut List<u8>, request: &Request) -> Result<(), Memory>
    ensures { OnOk result (out.new ≡ out.old ++ spelled_request request.now) }
{
    put_text(alloc, out, 1, request.version.as_str())?;
    put_node(alloc, out, &request.node)?;
    put_names(alloc, out, request.names.get())?;
    put_bytes(alloc, out, 4, type_url(request.kind).as_bytes())?;
    put_text(alloc, out, 5, request.nonce.as_str())?;
    put_error(alloc, out, &request.error)
}

/// Appends the request in its one spelling. For want of memory nothing is appended.
pub fn write_request(alloc: Global, request: &Request, out: &mut List<u8>) -> Result<(), Memory>
    ensures ok { OnOk result (out.new ≡ out.old ++ spelled_request request.now) }
    ensures err { OnErr result (out.new ≡ out.old) }
{
    let mut body = List::new(alloc);
    put_request(alloc, &mut body, request)?;
    out.extend_from_slice(body.as_slice())
}
