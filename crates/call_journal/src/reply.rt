//! What events are answered.
use ads_stream::Verdict;
use proto_discovery::Request;
use route_match::RouteAnswer;
use xc_base::{Authority, Key, List, Reason, Text};

/// A request that was sent to an authority.
#[derive(Drop)]
pub struct Sent {
    pub authority: Authority,
    pub request: Request,
}

/// The answer to a driver's event.
#[derive(Drop)]
pub struct DriverReply {
    pub verdict: Verdict,
    /// The requests that were due, in the order in which they left.
    pub sent: List<Sent>,
    /// The least key that is awaited.
    pub missing: Option<Key>,
    /// The number of the snapshot that was published.
    pub snapshot: Option<u32>,
    /// The pattern texts that were refused, in order.
    pub refused: List<Text>,
}

/// The answer to a caller's event. Snapshots are named by their numbers.
#[derive(Clone, Copy, PartialEq, Eq)]
pub enum CallerReply {
    /// A pin of this snapshot.
    Pinned(u32),
    /// A pin before any snapshot.
    NoSnapshot,
    /// A hold: the route in the snapshot that was pinned.
    Routed {
        snapshot: u32,
        answer: RouteAnswer,
    },
    /// A pick: the place of the child among the serving tree's, of the locality in its priority, and of
    /// the endpoint among the locality's READY ones.
    Endpoint {
        snapshot: u32,
        child: u32,
        locality: u32,
        place: u32,
    },
    /// A pick that waits for a connection.
    Queue {
        snapshot: u32,
    },
    /// A pick that fails.
    Fail {
        snapshot: u32,
        reason: Reason,
    },
    /// A pick that is dropped by the rule of this number, from 1.
    Drop {
        snapshot: u32,
        rule: u32,
    },
    /// A pick or commit of a call that holds no cluster.
    NotHeld,
    /// A commit of a call that held a cluster.
    Released,
}
