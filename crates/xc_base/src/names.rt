//! What things are called by: authorities, kinds, keys, calls, moments and states.
ghost use Rattle.std.specs.Prelude.{◌≡◌};

use crate::text::Text;

/// The place of an authority in the bootstrap. 0 is the default one, which has no name (gRFC A47).
#[derive(Clone, Copy, PartialEq, Eq, PartialOrd, Ord)]
pub struct Authority(pub u16);

impl Authority {
    /// The authority of names that name none.
    pub const DEFAULT: Authority = Authority(0);
}

/// The four kinds of resources, in the order in which a stream asks for them.
#[derive(Clone, Copy, PartialEq, Eq, PartialOrd, Ord)]
pub enum Kind {
    /// A Listener: where a target's routes are found (LDS).
    Listener,
    /// A RouteConfiguration: which cluster a call goes to (RDS).
    Route,
    /// A Cluster: a set of endpoints, or an aggregate of clusters (CDS).
    Cluster,
    /// A ClusterLoadAssignment: the addresses of a cluster (EDS).
    Endpoint,
}

/// Why a resource name has no home (gRFC A47).
#[derive(Clone, Copy, PartialEq, Eq, PartialOrd, Ord)]
pub enum NameFault {
    /// A `%` without two hexadecimal digits after it.
    BadEscape,
    /// The name hasn't the form of an `xdstp:` name, or is of another type.
    WrongType,
    /// The bootstrap doesn't have the authority.
    UnknownAuthority,
}

/// Whom a resource is asked of.
#[derive(Clone, Copy, PartialEq, Eq, PartialOrd, Ord)]
pub enum Home {
    /// The management server of this authority.
    At(Authority),
    /// A resource that is never asked for.
    Nowhere(NameFault),
}

/// A resource's kind, its canonical name and its home. Keys are ordered by kind, then by the bytes of
/// the name; the home follows from the two, and stands last.
#[derive(Clone, Drop, PartialEq, Eq, PartialOrd, Ord)]
pub struct Key {
    pub kind: Kind,
    /// The canonical name, by which a server knows the resource.
    pub name: Text,
    pub home: Home,
}

/// A call's number, 0 to 65,535 in a session.
#[derive(Clone, Copy, PartialEq, Eq, PartialOrd, Ord)]
pub struct CallId(pub u32);

/// A moment, in milliseconds since the beginning of the session.
#[derive(Clone, Copy, PartialEq, Eq, PartialOrd, Ord)]
pub struct Time(pub u64);

/// The connectivity state of an endpoint, a locality, a priority or a tree.
#[derive(Clone, Copy, PartialEq, Eq, PartialOrd, Ord)]
pub enum State {
    /// A connection is being made, or none was tried yet.
    Connecting,
    /// Calls can be sent.
    Ready,
    /// No connection can be made (TRANSIENT_FAILURE).
    Failing,
}
