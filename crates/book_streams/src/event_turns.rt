//! What events do to streams: each opens one, ends one, or leaves all.
ghost use Rattle.std.specs.Prelude.{◌≡◌, ◌==◌};
ghost use Rattle.xds_history.specs.Words.{same_authority};
ghost use Rattle.xds_history.specs.Streams.{is_unreadable, is_broken, turn_if, turn_by};
ghost use Rattle.book_streams.specs.StreamsLaws.{authority_in};

use ads_stream::Verdict;
use call_journal::{BytesHow, DriverEvent};
use xc_base::Authority;
use xds_history::Turn;

/// Whether two authorities are the same.
fn same_authority(a: Authority, b: Authority) -> bool
    ensures { result ≡ same_authority a b }
{
    a.0 == b.0
}

/// Whether a verdict says that a response can't be read.
fn is_unreadable(verdict: Verdict) -> bool
    ensures { result ≡ is_unreadable verdict }
{
    matches!(verdict, Verdict::Unreadable)
}

/// Whether bytes came that break their stream.
fn is_broken(how: BytesHow) -> bool
    ensures { result ≡ is_broken how }
{
    matches!(how, BytesHow::Compressed | BytesHow::TooLong(_))
}

/// This turn where the test holds, else none.
fn turn_if(test: bool, turn: Turn) -> Turn
    ensures { result ≡ turn_if test turn }
{
    if test { turn } else { Turn::Stays }
}

/// What an event with this verdict does to the stream of an authority. It takes no memory.
pub fn turn_by(authority: Authority, event: &DriverEvent, verdict: Verdict) -> Turn
    ensures { result ≡ turn_by authority event.now verdict }
{
    match event {
        DriverEvent::Opened(other) => turn_if(same_authority(authority, *other), Turn::Opens),
        DriverEvent::Lost(other) => turn_if(same_authority(authority, *other), Turn::Ends),
        DriverEvent::Response {
            authority: other,
            ..
        } => turn_if(
            same_authority(authority, *other) && is_unreadable(verdict),
            Turn::Ends,
        ),
        DriverEvent::Bytes {
            authority: other,
            how,
        } => turn_if(
            same_authority(authority, *other) && is_broken(*how),
            Turn::Ends,
        ),
        _ => Turn::Stays,
    }
}

/// The authority whose stream an event is about, if it is about one. It takes no memory.
pub fn authority_in(event: &DriverEvent) -> Option<Authority>
    ensures { result ≡ authority_in event.now }
{
    match event {
        DriverEvent::Opened(authority)
        | DriverEvent::Lost(authority)
        | DriverEvent::Response { authority, .. }
        | DriverEvent::Bytes { authority, .. } => Some(*authority),
        _ => None,
    }
}
