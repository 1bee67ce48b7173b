//! Checks of resources of each kind, and responses that are prepared.
use header_match::{CountedPatterns, RegexPatterns};
use proto_discovery::{AnyValue, type_url};
use resource_check::{
    Asked, Checked, Delivery, Halt, Prepared, Reading, Stop, check, check_or_halt, prepare,
    read_raw,
};
use std::alloc::Global;
use std::test::Fail;
use xc_base::{Kind, List, Reason, Shared, Text};

/// The listener `l` with the routes `r`.
const LISTENER: &[u8] =
    b"\x0a\x01l\x9a\x01t\x0a\x72\x0aetype.googleapis.com/envoy.extensions.filters.network.http_connection_manager.v3.HttpConnectionManager\x12\x09\x1a\x07\x0a\x02*\x00\x12\x01r";

/// The routes `r` with the pattern `b+` of a path and of a header, and the pattern `a+` of another header.
const ROUTES: &[u8] =
    b"\x0a\x01r\x12\x1a\x1a\x18\x0a\x16\x52\x04\x12\x02b+2\x06\x5a\x04\x12\x02b+2\x06\x5a\x04\x12\x02a+";

/// The cluster `web`.
const CLUSTER: &[u8] = b"\x0a\x03web\x10\x03\x1a\x04\x0a\x02\x1a\x00";

/// The endpoints `e` with one address.
const ENDPOINTS: &[u8] =
    b"\x0a\x01e\x12\x1d\x0a\x03\x0a\x01a\x12\x12\x0a\x10\x0a\x0e\x0a\x0c\x12\x0810.0.0.1\x18\x50\x1a\x02\x08\x01";

/// A response with the version `1`, the nonce `n` and the cluster `web` twice.
const RESPONSE: &[u8] =
    b"\x0a\x011\x12D\x0a3type.googleapis.com/envoy.config.cluster.v3.Cluster\x12\x0d\x0a\x03web\x10\x03\x1a\x04\x0a\x02\x1a\x00\x12D\x0a3type.googleapis.com/envoy.config.cluster.v3.Cluster\x12\x0d\x0a\x03web\x10\x03\x1a\x04\x0a\x02\x1a\x00\x223type.googleapis.com/envoy.config.cluster.v3.Cluster*\x01n";

fn bytes_of(alloc: Global, bytes: &[u8]) -> Result<List<u8>, Fail> {
    let mut list = List::new(alloc);
    list.extend_from_slice(bytes)?;
    Ok(list)
}

fn resource(alloc: Global, kind: Kind, bytes: &[u8]) -> Result<AnyValue, Fail> {
    let type_url = Text::from_str(alloc, type_url(kind))?;
    let value = bytes_of(alloc, bytes)?;
    if value.len() >= 1 << 32 {
        return Err(Fail::from("a short resource"));
    }
    Ok(AnyValue { type_url, value })
}

fn checked(alloc: Global, kind: Kind, bytes: &[u8]) -> Result<Checked, Fail> {
    let any = resource(alloc, kind, bytes)?;
    if any.value.len() >= 1 << 32 {
        return Err(Fail::from("a short resource"));
    }
    let mut asked = Asked::new(alloc);
    let mut patterns = RegexPatterns::new(alloc);
    Ok(check(alloc, kind, &any, &mut asked, &mut patterns)?)
}

#[test]
fn a_listener_and_a_cluster_are_checked(rt: HostRuntime) -> Result<(), Fail> {
    let listener = checked(rt.alloc(), Kind::Listener, LISTENER)?;
    assert!(rt; listener.name.as_str() == "l");
    let cluster = checked(rt.alloc(), Kind::Cluster, CLUSTER)?;
    assert!(rt; cluster.name.as_str() == "web");
    Ok(())
}

#[test]
fn routes_and_endpoints_are_checked(rt: HostRuntime) -> Result<(), Fail> {
    let routes = checked(rt.alloc(), Kind::Route, ROUTES)?;
    assert!(rt; routes.name.as_str() == "r");
    let endpoints = checked(rt.alloc(), Kind::Endpoint, ENDPOINTS)?;
    assert!(rt; endpoints.name.as_str() == "e");
    Ok(())
}

#[test]
fn a_message_is_read(rt: HostRuntime) -> Result<(), Fail> {
    let raw = read_raw(rt.alloc(), Kind::Cluster, CLUSTER);
    assert!(rt; matches!(&raw, Ok(raw) if raw.own_name().as_str() == "web"));
    Ok(())
}

/// Whether the check of the routes stops at this text.
fn stops_at<T>(answer: &Result<T, Halt>, text: &str) -> bool {
    match answer {
        Err(Halt::Refused(refusal)) => is_pattern(&refusal.stop, text),
        _ => false,
    }
}

fn is_pattern(stop: &Stop, text: &str) -> bool {
    match stop {
        Stop::Refused(pattern) => pattern.as_str() == text,
        Stop::Because(_) => false,
    }
}

#[test]
fn a_text_that_is_refused_is_asked_once(rt: HostRuntime) -> Result<(), Fail> {
    let alloc = rt.alloc();
    let any = resource(alloc, Kind::Route, ROUTES)?;
    if any.value.len() >= 1 << 32 {
        return Err(Fail::from("a short resource"));
    }
    let mut refusing = List::new(alloc);
    refusing.push(Text::from_str(alloc, "a+")?)?;
    let mut patterns = CountedPatterns::new(alloc, refusing);
    let mut asked = Asked::new(alloc);
    let first = check_or_halt(alloc, Kind::Route, &any, &mut asked, &mut patterns);
    assert!(rt; stops_at(&first, "a+"));
    let second = check_or_halt(alloc, Kind::Route, &any, &mut asked, &mut patterns);
    assert!(rt; stops_at(&second, "a+"));
    assert!(rt; asked.refused().len() == 1 && patterns.others.refused().len() == 1);
    Ok(())
}

/// Whether these are the cluster `web`, and a second resource of its name.
fn are_twice(parts: &[Delivery]) -> bool {
    match parts {
        [first, second] => first.result.is_ok() && matches!(second.result, Err(Reason::Second)),
        _ => false,
    }
}

fn is_cluster_response(prepared: &Prepared) -> bool {
    match &prepared.reading {
        Reading::Read {
            kind,
            version,
            nonce,
            parts,
        } => {
            matches!(kind, Some(Kind::Cluster))
                && version.as_str() == "1"
                && nonce.as_str() == "n"
                && are_twice(parts.as_slice())
        }
        Reading::Unreadable => false,
    }
}

#[test]
fn a_response_is_prepared(rt: HostRuntime) -> Result<(), Fail> {
    let alloc = rt.alloc();
    let bytes = bytes_of(alloc, RESPONSE)?;
    if bytes.len() >= 1 << 32 {
        return Err(Fail::from("a short payload"));
    }
    let payload = Shared::new(alloc, bytes)?;
    let mut patterns = RegexPatterns::new(alloc);
    let prepared = prepare(alloc, payload, &mut patterns)?;
    assert!(rt; is_cluster_response(&prepared) && prepared.refused.is_empty());
    Ok(())
}
