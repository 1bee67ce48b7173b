//! What becomes of an event of a stream.
use xc_base::Kind;

/// What became of a driver's event (Envoy's xDS protocol, "ACK and NACK").
#[derive(Clone, Copy, PartialEq, Eq)]
pub enum Verdict {
    /// The event took its course.
    Done,
    /// No stream was open.
    Closed,
    /// A response was accepted.
    Ack(Kind),
    /// A response was refused, since one of its resources is.
    Nack(Kind),
    /// A response of an unknown type, or of a kind that wasn't asked for on the stream.
    Ignored,
    /// A response that can't be read, which ends the stream.
    Unreadable,
}
