//! What a session says.
ghost use Rattle.std.specs.Prelude.{◌≡◌, if◌then◌else◌};
ghost use Rattle.session_lines.specs.Before.{call_in, data_len, driver_bytes, driver_entries, driver_time, entries_of, act_entries, is_driven, is_start, time_in};

use xc_base::{Address, Authority, Call, CallId, List, Shared, State, Time};
use xds_bootstrap::Bootstrap;
use xds_name::Target;

/// What a line has the driver do.
#[derive(Drop)]
pub enum DriverLine {
    /// The stream of an authority is opened.
    Opened(Authority),
    /// Bytes come on the stream of an authority, at least one.
    Bytes {
        authority: Authority,
        bytes: List<u8>,
    },
    /// The stream of an authority is lost.
    Lost(Authority),
    /// It is this moment, at most 1,000,000,000,000 ms after the beginning.
    Moment(Time),
    /// The state of an endpoint is reported; one that is idle counts as connecting.
    Endpoint {
        /// It stands apart, so that no other line takes its room.
        address: Shared<Address>,
        state: State,
    },
    /// The driver takes a step and nothing else.
    Sweep,
}

/// What a line has a caller do.
#[derive(Drop)]
pub enum Act {
    /// A call begins.
    Start(Shared<Call>),
    /// A call picks an endpoint by the draws of a word.
    Pick { call: CallId, word: u64 },
    /// A call's cluster is committed to.
    Commit(CallId),
}

/// Who does what.
#[derive(Drop)]
pub enum Work {
    Driver(DriverLine),
    /// A caller, from 1.
    Caller { caller: u16, act: Act },
}

/// A line from line 5 on.
#[derive(Drop)]
pub struct Line {
    /// Its number in the session.
    pub number: u32,
    /// The number of the line that has to end before it starts.
    pub gate: Option<u32>,
    pub work: Work,
}

/// A session: the bootstrap, the target of the channel with the listener that it names, how many callers
/// there are, and the lines from line 5 on.
#[derive(Drop)]
pub struct Session {
    pub boot: Bootstrap,
    pub target: Target,
    /// 1 to 16.
    pub callers: u16,
    pub lines: List<Line>,
}

impl DriverLine {
    /// The bytes that come.
    fn bytes(&self) -> usize
        ensures { result ≡ driver_bytes self.now }
    {
        match self {
            DriverLine::Bytes { bytes, .. } => bytes.len(),
            DriverLine::Opened(_)
            | DriverLine::Lost(_)
            | DriverLine::Moment(_)
            | DriverLine::Endpoint { .. }
            | DriverLine::Sweep => 0,
        }
    }

    /// The moment, or 0.
    fn time(&self) -> u64
        ensures { result ≡ driver_time self.now }
    {
        match self {
            DriverLine::Moment(time) => time.0,
            DriverLine::Opened(_)
            | DriverLine::Bytes { .. }
            | DriverLine::Lost(_)
            | DriverLine::Endpoint { .. }
            | DriverLine::Sweep => 0,
        }
    }
}

impl Act {
    /// The call that it names.
    pub fn call(&self) -> CallId
        ensures { result.0 ≡ call_in self.now }
    {
        match self {
            Act::Start(call) => call.get().id,
            Act::Pick { call, .. } | Act::Commit(call) => *call,
        }
    }

    /// Whether it starts its call.
    pub(crate) fn is_start(&self) -> bool
        ensures { result ≡ is_start self.now }
    {
        match self {
            Act::Start(_) => true,
            Act::Pick { .. } | Act::Commit(_) => false,
        }
    }

    /// At most how many entries it makes.
    fn entries(&self) -> usize
        ensures { result ≡ act_entries self.now }
    {
        match self {
            Act::Start(_) => 2,
            Act::Pick { .. } | Act::Commit(_) => 1,
        }
    }
}

impl Work {
    /// How many lines of the driver it is.
    pub fn driver_lines(&self) -> u32
        ensures { result ≡ (if is_driven self.now then 1 else 0) }
    {
        match self {
            Work::Driver(_) => 1,
            Work::Caller { .. } => 0,
        }
    }

    /// The bytes that come in it.
    pub fn data_len(&self) -> usize
        ensures { result ≡ data_len self.now }
    {
        match self {
            Work::Driver(what) => what.bytes(),
            Work::Caller { .. } => 0,
        }
    }

    /// Its moment, or 0.
    pub fn time(&self) -> u64
        ensures { result ≡ time_in self.now }
    {
        match self {
            Work::Driver(what) => what.time(),
            Work::Caller { .. } => 0,
        }
    }

    /// At most how many entries it makes.
    pub fn entries(&self) -> usize
        ensures { result ≡ entries_of self.now }
    {
        match self {
            Work::Driver(what) => 1 + what.bytes().div_ceil(5),
            Work::Caller { act, .. } => act.entries(),
        }
    }
}
