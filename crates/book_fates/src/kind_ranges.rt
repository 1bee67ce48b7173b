//! The keys of a kind among keys that stand in their order, which is by kind first.
ghost use Rattle.std.specs.Prelude.{◌≡◌, filter, not};
ghost use Rattle.std.specs.List.Sorted.{IsStrictlySortedBy};
ghost use Rattle.xc_keys.specs.Keys.{key_cmp, kind_place};
ghost use Rattle.xds_history.specs.Words.{same_kind};
ghost use Rattle.book_fates.specs.KindRanges.{is_below, is_upto};

use crate::part_tests::kind_place;
use xc_base::{Key, Kind};

/// Those of these keys whose kind stands at this place, or behind it.
fn keys_from(keys: &[Key], place: u8) -> &[Key]
    requires { IsStrictlySortedBy key_cmp keys.now }
    ensures { result.now ≡ filter (λ key. not (is_below place key)) keys.now }
{
    let count = keys.partition_point(|key| kind_place(key.kind) < place);
    keys.split_at(count).1
}

/// Those of these keys whose kind stands at this place, or before it.
fn keys_upto(keys: &[Key], place: u8) -> &[Key]
    requires { IsStrictlySortedBy key_cmp keys.now }
    ensures { result.now ≡ filter (is_upto place) keys.now }
{
    let count = keys.partition_point(|key| kind_place(key.kind) <= place);
    keys.split_at(count).0
}

/// Those of these keys that are of a kind. Of the others a few are looked at, as in a search by halves.
pub fn of_kind(keys: &[Key], kind: Kind) -> &[Key]
    requires { IsStrictlySortedBy key_cmp keys.now }
    ensures { result.now ≡ filter (λ key. same_kind kind key.kind) keys.now }
{
    let place = kind_place(kind);
    keys_upto(keys_from(keys, place), place)
}
