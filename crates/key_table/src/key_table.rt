//! A table in the order of keys.
ghost use Rattle.std.specs.Prelude.{◌≡◌, ◌↔◌, ◌<◌, [], true, length, slice_get, IfOk, IsTrue, Some, option_and_then, option_map};
ghost use Rattle.std.specs.List.Sorted.{IsStrictlySortedBy};
ghost use Rattle.std.specs.Map.{keys_of, lookup};
ghost use Rattle.xc_keys.specs.Keys.{is_key, key_cmp};
ghost use Rattle.key_table.specs.Rows.{value_at};

use std::alloc::Global;
use std::cmp::Ordering;
use std::collections::BTreeMap;
use std::marker::Model;
use xc_base::{Key, List, Memory};
use xc_keys::compare;

/// Values by keys, in the order of keys. Contracts see the table as its rows, of which each is a key and its value, as those of
/// the map that it is made of.
#[derive(Drop)]
pub struct KeyTable<V> {
    rows: List<(Key, V)>,
}

impl<V> Model for KeyTable<V> {
    ghost use Rattle.std.specs.Prelude.{List};
    ghost use Rattle.std.specs.List.Sorted.{IsStrictlySortedBy};
    ghost use Rattle.std.specs.Map.{keys_of};
    ghost use Rattle.xc_base.specs.declared.names.Key.{Key as KeyValue};
    ghost use Rattle.xc_keys.specs.Keys.{key_cmp};

    ghost Value = { List (KeyValue × V) };

    ghost view = { λ t. t.rows };

    ghost invariant = { λ t. IsStrictlySortedBy key_cmp (keys_of t.rows) };
}

/// How the key of a row compares with this one.
fn compared<V>(row: &(Key, V), key: &Key) -> Ordering
    ensures { result ≡ key_cmp row.now.0 key.now }
{
    compare(&row.0, key)
}

/// The place of the row of this key, from 0, found by halves.
fn search<V>(rows: &[(Key, V)], key: &Key) -> Option<usize>
    requires { IsStrictlySortedBy key_cmp (keys_of rows.now) }
    ensures { option_and_then (value_at rows.now) result ≡ lookup (is_key key.now) rows.now }
{
    rows.binary_search_by(|row| compared(row, key)).ok()
}

/// The row at a place, from 0; none where there is no such place.
fn row_at<V>(rows: &[(Key, V)], place: usize) -> Option<&(Key, V)>
    ensures { option_map (λ r. r.now) result ≡ slice_get rows.now place }
{
    rows.get(place)
}

/// Whether the row at a place is that of this key.
fn is_at<V>(rows: &[(Key, V)], key: &Key, place: usize) -> bool
    requires { IsStrictlySortedBy key_cmp (keys_of rows.now) }
    ensures { result ≡ true → value_at rows.now place ≡ lookup (is_key key.now) rows.now }
{
    match row_at(rows, place) {
        Some(row) => compared(row, key).is_eq(),
        None => false,
    }
}

/// The place of the row of this key, from 0, where the row at the place `near` is tried first.
fn place_of<V>(rows: &[(Key, V)], key: &Key, near: usize) -> Option<usize>
    requires { IsStrictlySortedBy key_cmp (keys_of rows.now) }
    ensures { option_and_then (value_at rows.now) result ≡ lookup (is_key key.now) rows.now }
{
    if is_at(rows, key, near) {
        return Some(near);
    }
    search(rows, key)
}

impl<V: Drop> KeyTable<V> {
    /// The table of what a map has. It answers want of memory where there is none.
    pub fn of(alloc: Global, map: BTreeMap<Key, V>) -> Result<KeyTable<V>, Memory>
        ensures { IfOk result (λ t. t ≡ map.entries) }
    {
        let rows = map.into_iter().collect(alloc)?;
        Ok(KeyTable {
            rows: List::from_vec(rows),
        })
    }

    /// How many rows there are.
    pub fn len(&self) -> usize
        ensures { result ≡ length self.now }
    {
        self.rows.len()
    }

    /// Whether there is no row.
    pub fn is_empty(&self) -> bool
        ensures { IsTrue result ↔ (self.now ≡ []) }
    {
        self.rows.is_empty()
    }

    /// The key of the row at a place, from 0.
    pub fn key(&self, place: usize) -> &Key
        requires { place < length self.now }
        ensures { slice_get (keys_of self.now) place ≡ Some result.now }
    {
        &self.rows.at(place).0
    }

    /// The value of a key. The row at the place `near` is tried first, and then the others by halves; from then on `near` is the
    /// place behind the row that was found.
    pub fn get(&self, key: &Key, near: &mut usize) -> Option<&V>
        ensures { option_map (λ v. v.now) result ≡ lookup (is_key key.now) self.now }
    {
        let rows = self.rows.as_slice();
        let place = place_of(rows, key, *near)?;
        match row_at(rows, place) {
            Some(row) => {
                *near = place + 1;
                Some(&row.1)
            }
            None => None,
        }
    }
}
