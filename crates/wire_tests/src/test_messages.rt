//! Messages of resources, each with all the messages that it can hold.
use proto_cluster::{read_aggregate, read_assignment, read_cluster};
use proto_listener::{read_listener, read_manager};
use proto_route::read_routes;

/// A route of the host `*` with a prefix, three tests of headers, a query parameter, a fraction, and a weighted cluster.
const ROUTES: &[u8] =
    b"\x0a\x01r\x12V\x0a\x01h\x12\x01*\x1aN\x0a?\x0a\x01/\x22\x02\x08\x002\x06\x0a\x01a\x22\x01x2\x14\x0a\x01b2\x0d\x08\xfb\xff\xff\xff\xff\xff\xff\xff\xff\x01\x10\x14@\x012\x0d\x0a\x01cj\x08*\x04\x12\x02d+0\x01:\x01\x01J\x06\x0a\x04\x08\x05\x10\x01\x12\x0b\x1a\x09\x0a\x07\x0a\x01c\x12\x02\x08\x03";

/// Two endpoints of one locality, of weight 3 and priority 1, and a drop rule.
const ASSIGNMENT: &[u8] =
    b"\x0a\x01c\x12.\x0a\x03\x12\x01z\x12\x12\x0a\x10\x0a\x0e\x0a\x0c\x12\x0810.0.0.1\x18P\x12\x0d\x0a\x0b\x0a\x09\x0a\x07\x12\x03\x3a\x3a1\x18Q\x1a\x02\x08\x03\x28\x01\x22\x0a\x12\x08\x0a\x02lb\x12\x02\x08\x05";

/// A cluster with a number above 32 bits, and with bytes that are kept as they are.
const CLUSTER: &[u8] = b"\x0a\x01c\x10\x03\x1a\x02\x12\x000\x81\x80\x80\x80\x10R\x01\xffR\x01\x01";

/// A listener whose one message stands in two parts.
const LISTENER: &[u8] =
    b"\x0a\x03svc\x9a\x01\x05\x0a\x03\x0a\x01t\x9a\x01\x06\x0a\x04\x12\x02\xff\x00";

/// The member that occurs last is set, and is read from there on; the other may be anything.
const MANAGER: &[u8] = b"\x1a\x03\x12\x01a\x22\x01\x0a\x1a\x07\x0a\x02\x1a\x00\x12\x01b";

#[test]
fn routes_are_read(rt: HostRuntime) {
    assert!(rt; read_routes(rt.alloc(), ROUTES).is_ok());
}

#[test]
fn clusters_are_read(rt: HostRuntime) {
    assert!(rt; read_cluster(rt.alloc(), CLUSTER).is_ok());
    assert!(rt; read_aggregate(rt.alloc(), b"\x0a\x01a\x08\x01\x0a\x00").is_ok());
}

#[test]
fn assignments_are_read(rt: HostRuntime) {
    assert!(rt; read_assignment(rt.alloc(), ASSIGNMENT).is_ok());
}

#[test]
fn listeners_are_read(rt: HostRuntime) {
    assert!(rt; read_listener(rt.alloc(), LISTENER).is_ok());
    assert!(rt; read_manager(rt.alloc(), MANAGER).is_ok());
}
