//! The names for which one stream asks.
ghost use Rattle.std.specs.Prelude.{◌≡◌, ◌++◌, ◌∷◌, [], map, IfOk, IfSome, OnOk};
ghost use Rattle.ads_stream.specs.StreamSteps.{names_told, requests_due, IsSettledBut};
ghost use Rattle.xc_keys.specs.Keys.{kind_place};
ghost use Rattle.xds_history.specs.Requests.{sent_to};
ghost use Rattle.book_streams.specs.StreamsKept.{is_asked_of, key_names, names_among};

use crate::told_keys::ToldKeys;
use ads_stream::{Names, Stream};
use call_journal::Sent;
use proto_discovery::Request;
use std::alloc::Global;
use xc_base::{Authority, Home, Key, Kind, List, Memory, Shared, Text};

/// The place of a kind in the order of kinds.
fn kind_place(kind: Kind) -> u8
    ensures { result ≡ kind_place kind }
{
    match kind {
        Kind::Listener => 0,
        Kind::Route => 1,
        Kind::Cluster => 2,
        Kind::Endpoint => 3,
    }
}

/// Whether a key is of a kind and lives at an authority.
fn is_asked_of(authority: Authority, kind: Kind, key: &Key) -> bool
    ensures { result ≡ is_asked_of authority kind key.now }
{
    match key.home {
        Home::At(other) => kind_place(key.kind) == kind_place(kind) && authority.0 == other.0,
        Home::Nowhere(_) => false,
    }
}

/// Adds the name of a key, where it is of a kind and lives at an authority.
fn add_name(
    authority: Authority,
    kind: Kind,
    key: &Key,
    names: &mut List<Text>,
) -> Result<(), Memory>
    ensures { OnOk result (names.new ≡ names.old ++ key_names authority kind (key.now ∷ [])) }
{
    if is_asked_of(authority, kind, key) {
        names.push(key.name.clone()?)?;
    }
    Ok(())
}

/// The names of the keys of an authority and kind, in their order. It fails for want of memory alone.
pub fn key_names(
    alloc: Global,
    authority: Authority,
    kind: Kind,
    keys: &[Key],
) -> Result<List<Text>, Memory>
    ensures { IfOk result (λ names. names ≡ key_names authority kind keys.now) }
{
    let mut names = List::new(alloc);
    for key in keys {
        add_name(authority, kind, key, &mut names)?;
    }
    Ok(names)
}

/// The names of the keys of an authority, kind by kind. It fails for want of memory alone.
pub fn names_among(alloc: Global, authority: Authority, keys: &[Key]) -> Result<Names, Memory>
    ensures { IfOk result (λ names. names ≡ names_among keys.now authority) }
{
    Ok(Names {
        listener: Shared::new(alloc, key_names(alloc, authority, Kind::Listener, keys)?)?,
        route: Shared::new(alloc, key_names(alloc, authority, Kind::Route, keys)?)?,
        cluster: Shared::new(alloc, key_names(alloc, authority, Kind::Cluster, keys)?)?,
        endpoint: Shared::new(alloc, key_names(alloc, authority, Kind::Endpoint, keys)?)?,
    })
}

/// Adds requests to an authority.
fn add_sent(
    authority: Authority,
    requests: List<Request>,
    sent: &mut List<Sent>,
) -> Result<(), Memory>
    ensures { OnOk result (sent.new ≡ sent.old ++ map (sent_to authority) requests) }
{
    for request in requests.into_vec() {
        sent.push(Sent { authority, request })?;
    }
    Ok(())
}

/// The requests that are due on a stream by these names, which count as sent. Where a kind is given, none of another kind is
/// due, and no other is looked at. It fails for want of memory alone.
fn ask(stream: &mut Stream, names: &Names, due: Option<Kind>) -> Result<List<Request>, Memory>
    requires settled { IfSome due (λ kind. IsSettledBut stream.old names.now kind) }
    ensures due { IfOk result (λ requests. requests ≡ requests_due stream.old names.now) }
    ensures state { OnOk result (stream.new ≡ names_told stream.old names.now) }
{
    match due {
        Some(kind) => stream.answer(kind, names),
        None => stream.names(names),
    }
}

/// Tells a stream which keys are watched, and adds the requests that are due on it, which are of one kind where a kind is
/// given. A stream that is down costs nothing. It fails for want of memory alone.
pub fn tell(
    authority: Authority,
    stream: &mut Stream,
    told: &mut ToldKeys,
    due: Option<Kind>,
    sent: &mut List<Sent>,
) -> Result<(), Memory>
    requires settled { IfSome due (λ kind. IsSettledBut stream.old (names_among told.old authority) kind) }
    ensures sent { OnOk result (sent.new ≡ sent.old ++ map (sent_to authority) (requests_due stream.old (names_among told.old authority))) }
    ensures state { OnOk result (stream.new ≡ names_told stream.old (names_among told.old authority)) }
    ensures told { told.new ≡ told.old }
{
    if !stream.is_up() {
        return Ok(());
    }
    let names = told.names(authority)?;
    let requests = ask(stream, &names, due)?;
    add_sent(authority, requests, sent)
}
