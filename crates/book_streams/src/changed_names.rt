//! Whose names differ in two lists of keys.
ghost use Rattle.std.specs.Prelude.{◌≡◌, ◌+◌, ◌<◌, ◌≤◌, ◌↔◌, ℕ, List, [], drop, length, slice_get, Some, false, IsTrue};
ghost use Rattle.xc_base.specs.declared.names.Authority.{Authority as AuthorityValue};
ghost use Rattle.xc_base.specs.declared.names.Kind.{Kind as KindValue};
ghost use Rattle.book_streams.specs.StreamsKept.{key_names};
ghost use Rattle.book_streams.specs.Settling.{HaveSameNames, IsCompared, KeepsMarks, mark_home};

use crate::stream_marks::StreamMarks;
use std::cmp::Ordering;
use xc_base::{Home, Key};
use xc_keys::compare;

/// Up to where two lists were compared.
#[derive(Clone, Copy)]
struct Places {
    before: usize,
    after: usize,
}

/// Whether two keys are the same.
fn is_same(key: &Key, other: &Key) -> bool
    ensures { IsTrue result ↔ (key.now ≡ other.now) }
{
    compare(key, other).is_eq()
}

/// Whether two lists of keys are the same.
pub fn are_same(keys: &[Key], others: &[Key]) -> bool
    ensures { IsTrue result ↔ (keys.now ≡ others.now) }
{
    if keys.len() != others.len() {
        return false;
    }
    for place in 0..keys.len() {
        if !is_same(&keys[place], &others[place]) {
            return false;
        }
    }
    true
}

/// Marks the place of the authority at which a key lives.
fn mark_home(marks: &mut StreamMarks, key: &Key)
    ensures { marks.new ≡ mark_home marks.old key.now.home }
{
    match key.home {
        Home::At(authority) => marks.mark(authority.0 as usize),
        Home::Nowhere(_) => {}
    }
}

/// Marks the place of each authority at which one of these keys lives.
fn mark_homes(marks: &mut StreamMarks, keys: &[Key])
    ensures kept { KeepsMarks marks.old marks.new }
    ensures none { HaveSameNames marks.new keys.now [] }
{
    for key in keys {
        mark_home(marks, key);
    }
}

/// Compares the next keys of two lists in order. Where they aren't the same, the place of the one that comes first is marked.
fn compare_next(marks: &mut StreamMarks, before: &[Key], after: &[Key], at: Places) -> Places
    requires before { at.before < length before.now }
    requires after { at.after < length after.now }
    ensures compared { IsCompared marks.old marks.new (drop at.before before.now) (drop at.after after.now) (drop result.before before.now) (drop result.after after.now) }
    ensures further { at.before + at.after < result.before + result.after }
    ensures within { (result.before ≤ length before.now) × (result.after ≤ length after.now) }
{
    let (key, other) = (&before[at.before], &after[at.after]);
    match compare(key, other) {
        Ordering::Equal => Places {
            before: at.before + 1,
            after: at.after + 1,
        },
        Ordering::Less => {
            mark_home(marks, key);
            Places {
                before: at.before + 1,
                after: at.after,
            }
        }
        Ordering::Greater => {
            mark_home(marks, other);
            Places {
                before: at.before,
                after: at.after + 1,
            }
        }
    }
}

/// Compares two lists of keys up to the end of one of them.
fn compare_keys(marks: &mut StreamMarks, before: &[Key], after: &[Key]) -> Places
    ensures compared { IsCompared marks.old marks.new before.now after.now (drop result.before before.now) (drop result.after after.now) }
    ensures within { (result.before ≤ length before.now) × (result.after ≤ length after.now) }
{
    let mut at = Places {
        before: 0,
        after: 0,
    };
    while at.before < before.len() && at.after < after.len() {
        at = compare_next(marks, before, after, at);
    }
    at
}

/// Marks the places of all authorities whose keys in two lists haven't the same names. Where the lists are in the order of
/// keys, no others are marked.
pub fn mark_changed(marks: &mut StreamMarks, before: &[Key], after: &[Key])
    ensures kept { KeepsMarks marks.old marks.new }
    ensures same { HaveSameNames marks.new before.now after.now }
{
    let at = compare_keys(marks, before, after);
    mark_homes(marks, &before[at.before..]);
    mark_homes(marks, &after[at.after..]);
}
