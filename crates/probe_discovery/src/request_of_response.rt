//! The request that is made of a response's parts.
use crate::show_fault::Fault;
use proto_discovery::{AnyValue, Request, Response, kind_of};
use std::alloc::Global;
use xc_base::{List, Memory, Node, Shared, Text};

/// The request with the version, the nonce and the kind of a response, and with the type URLs of its resources as names. Five
/// names or more are the texts of a node too, and where there is no version the nonce is the text of an error too.
pub fn request_of(alloc: Global, response: &Response) -> Result<Request, Fault> {
    let Some(kind) = kind_of(response.type_url.as_str()) else {
        return Err(Fault::Kind);
    };
    let names = names(alloc, response.resources.as_slice())?;
    Ok(Request {
        kind,
        version: response.version.clone()?,
        nonce: response.nonce.clone()?,
        node: node(names.as_slice())?,
        names: Shared::new(alloc, names)?,
        error: error(response)?,
    })
}

/// The type URLs of resources.
fn names(alloc: Global, resources: &[AnyValue]) -> Result<List<Text>, Memory> {
    let mut names = List::new(alloc);
    for resource in resources {
        names.push(resource.type_url.clone()?)?;
    }
    Ok(names)
}

/// The node of the first five names.
fn node(names: &[Text]) -> Result<Option<Node>, Memory> {
    let [id, cluster, region, zone, sub_zone, ..] = names else {
        return Ok(None);
    };
    Ok(Some(Node {
        id: id.clone()?,
        cluster: cluster.clone()?,
        region: region.clone()?,
        zone: zone.clone()?,
        sub_zone: sub_zone.clone()?,
    }))
}

/// The nonce, where there is no version.
fn error(response: &Response) -> Result<Option<Text>, Memory> {
    if response.version.is_empty() {
        Ok(Some(response.nonce.clone()?))
    } else {
        Ok(None)
    }
}
