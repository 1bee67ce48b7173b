//! Requests and responses.
use proto_discovery::{
    AnyValue, Request, WRAPPER_URL, read_response, unwrap_resource, write_request,
};
use std::alloc::Global;
use std::test::Fail;
use xc_base::{Kind, List, Memory, Node, Shared, Text};

/// A refusal that names its node, as protoc encodes it.
const REFUSAL: &[u8] =
    b"\x0a\x011\x12\x4c\x0a\x01n\x52\x2aenvoy.lb.does_not_support_overprovisioning\x52\x1bxds.config.resource-in-sotw\x1a\x03svc\x22\x35type.googleapis.com/envoy.config.listener.v3.Listener\x2a\x02n2\x32\x12\x08\x03\x12\x0esvc: no-routes";

/// A response of 126 bytes, with a listener that has a name alone.
const RESPONSE: &[u8] =
    b"\x0a\x011\x12\x3e\x0a\x35type.googleapis.com/envoy.config.listener.v3.Listener\x12\x05\x0a\x03svc\x22\x35type.googleapis.com/envoy.config.listener.v3.Listener\x2a\x02n1";

/// The node of the request.
fn node(alloc: Global) -> Result<Node, Memory> {
    Ok(Node {
        id: Text::from_str(alloc, "n")?,
        cluster: Text::new(),
        region: Text::new(),
        zone: Text::new(),
        sub_zone: Text::new(),
    })
}

/// The request that the bytes spell.
fn refusal(alloc: Global) -> Result<Request, Memory> {
    let mut names = List::new(alloc);
    names.push(Text::from_str(alloc, "svc")?)?;
    Ok(Request {
        kind: Kind::Listener,
        version: Text::from_str(alloc, "1")?,
        nonce: Text::from_str(alloc, "n2")?,
        names: Shared::new(alloc, names)?,
        node: Some(node(alloc)?),
        error: Some(Text::from_str(alloc, "svc: no-routes")?),
    })
}

#[test]
fn a_request_is_written(rt: HostRuntime) -> Result<(), Fail> {
    let request = refusal(rt.alloc())?;
    let mut out = List::new(rt.alloc());
    assert!(rt; write_request(rt.alloc(), &request, &mut out).is_ok());
    assert!(rt; out.as_slice() == REFUSAL);
    Ok(())
}

#[test]
fn a_response_is_read(rt: HostRuntime) {
    assert!(rt; read_response(rt.alloc(), RESPONSE).is_ok());
}

#[test]
fn a_resource_is_taken_out_of_its_wrapper(rt: HostRuntime) -> Result<(), Fail> {
    let mut value = List::new(rt.alloc());
    value.extend_from_slice(b"\x0a\x017\x12\x06\x0a\x01u\x12\x01v\x1a\x01n")?;
    assert!(rt; value.len() < 100);
    let type_url = Text::from_str(rt.alloc(), WRAPPER_URL)?;
    let any = AnyValue { type_url, value };
    assert!(rt; any.copy(rt.alloc()).is_ok());
    assert!(rt; unwrap_resource(rt.alloc(), &any).is_ok());
    Ok(())
}
