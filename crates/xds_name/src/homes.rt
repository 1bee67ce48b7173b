//! Where names live.
ghost use Rattle.std.specs.Prelude.{◌≡◌, IfOk};
ghost use Rattle.xds_name.specs.Names.{begins_with_digits, has_bad_escape, home_of, resource_key, type_name};

use crate::canonical_text::{canonical, canonical_name};
use crate::name_parts::parts_in;
use std::alloc::Global;
use xc_base::{Authority, Home, Key, Kind, Memory, NameFault, Text};
use xds_bootstrap::Bootstrap;

/// The type of a kind's resources, as in their type URL.
pub fn type_name(kind: Kind) -> &'static str
    ensures { result.now ≡ type_name kind }
{
    match kind {
        Kind::Listener => "envoy.config.listener.v3.Listener",
        Kind::Route => "envoy.config.route.v3.RouteConfiguration",
        Kind::Cluster => "envoy.config.cluster.v3.Cluster",
        Kind::Endpoint => "envoy.config.endpoint.v3.ClusterLoadAssignment",
    }
}

/// Whether a text begins with two hexadecimal digits.
fn begins_with_digits(text: &[u8]) -> bool
    ensures { result ≡ begins_with_digits text.now }
{
    matches!(text, [high, low, ..] if high.is_ascii_hexdigit() && low.is_ascii_hexdigit())
}

/// Whether there is a `%` without two hexadecimal digits after it.
#[tactic(auto, unfolding(crate::specs::Names::has_bad_escape))]
fn has_bad_escape(text: &[u8]) -> bool
    ensures { result ≡ has_bad_escape text.now }
{
    for i in 0..text.len() {
        if text[i] == b'%' && !begins_with_digits(&text[i + 1..]) {
            return true;
        }
    }
    false
}

/// Where a name of a kind lives: each name but an `xdstp:` name at the default authority.
#[tactic(auto, unfolding(crate::specs::Names::home_of))]
fn home(boot: &Bootstrap, kind: Kind, text: &str) -> Home
    ensures { result ≡ home_of boot.now.authorities kind text.now }
{
    if !text.starts_with("xdstp:") {
        return Home::At(Authority::DEFAULT);
    }
    if has_bad_escape(text.as_bytes()) {
        return Home::Nowhere(NameFault::BadEscape);
    }
    let Some(parts) = parts_in(text) else {
        return Home::Nowhere(NameFault::WrongType);
    };
    if parts.resource != type_name(kind) {
        return Home::Nowhere(NameFault::WrongType);
    }
    match boot.authority(parts.authority) {
        Some(authority) => Home::At(authority),
        None => Home::Nowhere(NameFault::UnknownAuthority),
    }
}

/// The key of a name of a kind (gRFC A47): its canonical text, and where it lives, which is nowhere for
/// an `xdstp:` name at fault. The first fault counts: a bad escape, a wrong type, an unknown authority.
pub fn parse_name(alloc: Global, boot: &Bootstrap, kind: Kind, text: &str) -> Result<Key, Memory>
    ensures { IfOk result (λ key. key ≡ resource_key boot.now.authorities kind text.now) }
{
    let name = canonical(alloc, text)?;
    let home = home(boot, kind, text);
    Ok(Key { kind, name, home })
}

/// The key of a name that is held as a text, which the key shares where the name is its own canonical
/// text.
pub fn name_key(alloc: Global, boot: &Bootstrap, kind: Kind, name: &Text) -> Result<Key, Memory>
    ensures { IfOk result (λ key. key ≡ resource_key boot.now.authorities kind name.now) }
{
    let home = home(boot, kind, name.as_str());
    let name = canonical_name(alloc, name)?;
    Ok(Key { kind, name, home })
}
