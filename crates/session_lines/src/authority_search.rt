//! The search for an authority by its name.
ghost use Rattle.std.specs.Prelude.{◌≡◌, ◌≤◌, ◌<◌, length, map, IfSome};
ghost use Rattle.std.specs.Cmp.Lexicographic.{slice_cmp};
ghost use Rattle.std.specs.List.Sorted.{IsStrictlySortedBy};
ghost use Rattle.std.specs.Ordering.{nat_cmp};
ghost use Rattle.xds_bootstrap.specs.Authorities.{AreAuthorities, authority_of, named, place_among};

use std::cmp::Ordering;
use xc_base::Authority;
use xds_bootstrap::{AuthorityEntry, Bootstrap};

/// The authority of this name among the named ones, found by binary search. None where none has the name.
#[tactic(auto, unfolding(xds_bootstrap::specs::Authorities::authority_of))]
pub fn authority_named(boot: &Bootstrap, name: &str) -> Option<Authority>
    requires lawful { AreAuthorities boot.now.authorities }
    ensures { result ≡ authority_of boot.now.authorities name.now }
{
    let place = place_among(named_entries(boot.authorities.as_slice()), name)?;
    Some(Authority(place as u16 + 1))
}

/// The named entries: all but the first.
fn named_entries(entries: &[AuthorityEntry]) -> &[AuthorityEntry]
    requires lawful { AreAuthorities entries.now }
    ensures named { result.now ≡ named entries.now }
    ensures few { length result.now ≤ 65534 }
    ensures rising { IsStrictlySortedBy (slice_cmp nat_cmp) (map (λ entry. entry.name) result.now) }
{
    let (_, named) = entries.split_at(1);
    named
}

/// The place of the entry of this name, from 0.
fn place_among(entries: &[AuthorityEntry], name: &str) -> Option<usize>
    requires rising { IsStrictlySortedBy (slice_cmp nat_cmp) (map (λ entry. entry.name) entries.now) }
    ensures place { result ≡ place_among entries.now name.now }
    ensures within { IfSome result (λ place. place < length entries.now) }
{
    entries.binary_search_by(|entry| compared(entry, name)).ok()
}

/// How the name of an entry compares with this one, byte by byte.
fn compared(entry: &AuthorityEntry, name: &str) -> Ordering
    ensures { result ≡ slice_cmp nat_cmp entry.now.name name.now }
{
    entry.name.as_str().cmp(name)
}
