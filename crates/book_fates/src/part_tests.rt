//! Tests of kinds and homes.
ghost use Rattle.std.specs.Prelude.{◌≡◌};
ghost use Rattle.xc_keys.specs.Keys.{kind_place};
ghost use Rattle.xds_history.specs.Words.{lives_at, same_kind};
ghost use Rattle.xds_history.specs.Fates.{deletes};

use xc_base::{Authority, Home, Kind};

/// The place of a kind in the order of kinds, from 0.
pub fn kind_place(kind: Kind) -> u8
    ensures { result ≡ kind_place kind }
{
    match kind {
        Kind::Listener => 0,
        Kind::Route => 1,
        Kind::Cluster => 2,
        Kind::Endpoint => 3,
    }
}

/// Whether two kinds are the same.
pub fn same_kind(a: Kind, b: Kind) -> bool
    ensures { result ≡ same_kind a b }
{
    kind_place(a) == kind_place(b)
}

/// Whether this is the home of an authority's resources.
pub fn lives_at(authority: Authority, home: Home) -> bool
    ensures { result ≡ lives_at authority home }
{
    match home {
        Home::At(other) => authority.0 == other.0,
        Home::Nowhere(_) => false,
    }
}

/// Whether a response of a kind deletes what it lacks: one of listeners or clusters does, since it names all of them (Envoy's
/// xDS transport, "Deleting Resources").
pub fn deletes(kind: Kind) -> bool
    ensures { result ≡ deletes kind }
{
    matches!(kind, Kind::Listener | Kind::Cluster)
}
