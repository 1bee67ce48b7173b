//! What happens.
use xc_base::{Address, Authority, Call, CallId, List, Shared, State, Time};

/// What became of the bytes of a data line.
#[derive(Clone, Copy, PartialEq, Eq)]
pub enum BytesHow {
    /// They were taken.
    Whole,
    /// No stream was open.
    Closed,
    /// A frame has a compressed flag, which ends the stream.
    Compressed,
    /// A frame has this length, which is above the limit and ends the stream.
    TooLong(u32),
    /// A response in them couldn't be read, which ended the stream.
    Ended,
}

/// An event that the driver plays.
#[derive(Drop)]
pub enum DriverEvent {
    /// The stream of an authority is opened; an open one is replaced.
    Opened(Authority),
    /// A message came whole on the stream of an authority.
    Response {
        authority: Authority,
        payload: Shared<List<u8>>,
    },
    /// The bytes of a data line came on the stream of an authority.
    Bytes {
        authority: Authority,
        how: BytesHow,
    },
    /// The stream of an authority is lost.
    Lost(Authority),
    /// It is this moment.
    Moment(Time),
    /// The state of an endpoint is reported.
    Endpoint {
        /// It stands apart, so that no other event takes its room.
        address: Shared<Address>,
        state: State,
    },
    /// Nothing else happens.
    Sweep,
}

/// An event of a caller.
#[derive(Drop)]
pub enum CallerEvent {
    /// A call takes the latest snapshot.
    Pin(Shared<Call>),
    /// A call takes hold of the cluster of its route, and leaves its snapshot.
    Hold(Shared<Call>),
    /// A call picks an endpoint by the draws of a word.
    Pick { call: CallId, word: u64 },
    /// A call leaves its cluster.
    Commit(CallId),
}
