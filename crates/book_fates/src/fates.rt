//! What an answered response, and time, make of what is known of watched keys.
ghost use Rattle.std.specs.Prelude.{◌≡◌, ◌≤◌, ◌+◌, ◌++◌, ◌∷◌, [], List, Some, false, true, IsOk, OnOk, IfOk, filter, if◌then◌else◌, length, option_map};
ghost use Rattle.std.specs.List.Sorted.{IsStrictlySortedBy};
ghost use Rattle.xc_base.specs.declared.names.Time.{Time as TimeValue};
ghost use Rattle.xc_keys.specs.Keys.{key_cmp};
ghost use Rattle.xds_cache.specs.KeptFates.{Changes, TellsChange, shown};
ghost use Rattle.xds_history.specs.Fates.{deletes, has_value, lacks, mark_of, marked};
ghost use Rattle.xds_history.specs.Setting.{Setting};
ghost use Rattle.xds_history.specs.Responses.{Came, answered};
ghost use Rattle.xds_history.specs.Page.{watched_now};
ghost use Rattle.xds_history.specs.declared.page.Page.{Page as PageValue};
ghost use Rattle.call_journal.specs.declared.entry.Entry.{Entry as EntryValue};
ghost use Rattle.book_fates.specs.NamedParts.{AreNamesOf};
ghost use Rattle.book_fates.specs.Delivered.{IsReady, delivered_by, delivered_in, told_as};
ghost use Rattle.book_fates.specs.FateSteps.{AreLawfulParts, AreListed, AreOf, IsLawfulOf, Knows, Stepped, WatchesOnly, after_mark, gone_among, gone_at, is_let_go, most_deleted, out_among, part_step, parts_step, told_step};

use crate::answered::Answered;
use crate::kind_ranges::of_kind;
use crate::part_names::lacks;
use crate::part_tests::{deletes, lives_at, same_kind};
use std::alloc::Global;
use std::sync::ledger::Ledger;
use xc_base::{Authority, Home, Key, Kind, List, Memory, Reason, Steps};
use xds_cache::{Cache, Fate};
use xds_config::Value;
use xds_history::Delivery;

// ---- the keys of which something else is known

/// Lists a key, where something else is known of it.
fn list_if(keys: &mut List<Key>, is_other: bool, key: Key) -> Result<(), Memory>
    ensures { OnOk result (keys.new ≡ (if is_other then keys.old ++ key ∷ [] else keys.old)) }
{
    if is_other {
        keys.push(key)?;
    }
    Ok(())
}

// ---- parts

/// Takes in what a response says of a key. It answers whether something else is known of the key from now on.
fn take_result(cache: &mut Cache, key: &Key, told: Result<Value, Reason>) -> Result<bool, Memory>
    requires { IfOk told (IsLawfulOf key.now.kind) }
    ensures change { Changes cache.old cache.new key.now (option_map (after_mark (mark_of told))) }
    ensures told { IfOk result (λ is_other. TellsChange is_other cache.old key.now (option_map (after_mark (mark_of told)))) }
{
    match told {
        Ok(value) => cache.accept(key, value),
        Err(reason) => cache.refuse(key, reason),
    }
}

/// Takes in a resource of a response, and lists its key, where something else is known of it from now on.
fn take_part(
    cache: &mut Cache,
    changed: &mut List<Key>,
    authority: Authority,
    kind: Kind,
    part: Delivery,
) -> Result<(), Memory>
    requires { IfOk part.result (IsLawfulOf kind) }
    ensures step { OnOk result (Stepped cache.old cache.new (part_step authority kind part)) }
    ensures listed { OnOk result (AreListed cache.old cache.new changed.old changed.new) }
    ensures theirs { OnOk result (AreOf authority kind changed.old → AreOf authority kind changed.new) }
    ensures few { OnOk result (length changed.new ≤ length changed.old + 1) }
{
    let Delivery { name, result } = part;
    let Some(name) = name else {
        return Ok(());
    };
    let key = Key {
        kind,
        name,
        home: Home::At(authority),
    };
    let is_other = take_result(cache, &key, result)?;
    list_if(changed, is_other, key)?;
    Ok(())
}

/// Takes in the resources of a response, from the last one on, and lists the keys of which something else is known from now on.
fn take_parts(
    cache: &mut Cache,
    changed: &mut List<Key>,
    authority: Authority,
    kind: Kind,
    parts: List<Delivery>,
) -> Result<(), Memory>
    requires { AreLawfulParts kind parts }
    ensures step { OnOk result (Stepped cache.old cache.new (parts_step authority kind parts)) }
    ensures listed { OnOk result (AreListed cache.old cache.new changed.old changed.new) }
    ensures theirs { OnOk result (AreOf authority kind changed.old → AreOf authority kind changed.new) }
    ensures few { OnOk result (length changed.new ≤ length changed.old + length parts) }
{
    let mut left = parts.into_vec();
    while let Some(part) = left.pop() {
        take_part(cache, changed, authority, kind, part)?;
    }
    Ok(())
}

// ---- deletions

/// Whether a fate is a value.
fn has_value(fate: Fate<'_>) -> bool
    ensures { result ≡ has_value (shown fate.entry) }
{
    matches!(fate, Fate::Value(_))
}

/// Whether a response lacks a key.
fn lacks_key(response: &Answered, key: &Key) -> bool
    requires { AreNamesOf response.now.parts response.now.names }
    ensures { result ≡ lacks (told_as (delivered_in response.now)) key.now }
{
    lacks(&response.names, key)
}

/// Whether a response lets go a key that has this fate.
fn is_let_go(response: &Answered, key: &Key, fate: Fate<'_>) -> bool
    requires { deletes response.now.kind ≡ true → AreNamesOf response.now.parts response.now.names }
    ensures { result ≡ is_let_go (told_as (delivered_in response.now)) key.now (shown fate.entry) }
{
    deletes(response.kind)
        && same_kind(response.kind, key.kind)
        && lives_at(response.authority, key.home)
        && lacks_key(response, key)
        && has_value(fate)
}

/// Lets a key go, where the response lacks it, and lists it then.
fn let_one_go<L: Ledger>(
    cache: &mut Cache,
    changed: &mut List<Key>,
    response: &Answered,
    key: &Key,
    steps: &mut Steps<L>,
) -> Result<(), Memory>
    requires { deletes response.now.kind ≡ true → AreNamesOf response.now.parts response.now.names }
    ensures step { OnOk result (Stepped cache.old cache.new (gone_at (told_as (delivered_in response.now)) key.now)) }
    ensures listed { OnOk result (AreListed cache.old cache.new changed.old changed.new) }
    ensures theirs { OnOk result (AreOf response.now.authority response.now.kind changed.old → AreOf response.now.authority response.now.kind changed.new) }
    ensures cost { steps.new ≤ steps.old + 1 }
{
    if !is_let_go(response, key, cache.get(key, steps)) {
        return Ok(());
    }
    let is_other = cache.delete(key);
    list_if(changed, is_other, key.clone()?)?;
    Ok(())
}

/// Lets go those of the keys that the response lacks, and lists them.
fn let_each_go<L: Ledger>(
    cache: &mut Cache,
    changed: &mut List<Key>,
    response: &Answered,
    keys: &[Key],
    steps: &mut Steps<L>,
) -> Result<(), Memory>
    requires { deletes response.now.kind ≡ true → AreNamesOf response.now.parts response.now.names }
    ensures step { OnOk result (Stepped cache.old cache.new (gone_among (told_as (delivered_in response.now)) keys.now)) }
    ensures listed { OnOk result (AreListed cache.old cache.new changed.old changed.new) }
    ensures theirs { OnOk result (AreOf response.now.authority response.now.kind changed.old → AreOf response.now.authority response.now.kind changed.new) }
    ensures cost { steps.new ≤ steps.old + length keys.now }
{
    for key in keys {
        let_one_go(cache, changed, response, key, steps)?;
    }
    Ok(())
}

/// Lets go those of the keys that the response lacks, and lists them. It looks at none but those of its kind, and where that
/// deletes none at no key.
fn let_go<L: Ledger>(
    cache: &mut Cache,
    changed: &mut List<Key>,
    response: &Answered,
    keys: &[Key],
    steps: &mut Steps<L>,
) -> Result<(), Memory>
    requires named { deletes response.now.kind ≡ true → AreNamesOf response.now.parts response.now.names }
    requires rising { IsStrictlySortedBy key_cmp keys.now }
    ensures step { OnOk result (Stepped cache.old cache.new (gone_among (told_as (delivered_in response.now)) keys.now)) }
    ensures listed { OnOk result (AreListed cache.old cache.new changed.old changed.new) }
    ensures theirs { OnOk result (AreOf response.now.authority response.now.kind changed.old → AreOf response.now.authority response.now.kind changed.new) }
    ensures cost { steps.new ≤ steps.old + most_deleted response.now.kind keys.now }
    ensures few { OnOk result (deletes response.now.kind ≡ false → changed.new ≡ changed.old) }
{
    if !deletes(response.kind) {
        return Ok(());
    }
    let theirs = of_kind(keys, response.kind);
    let_each_go(cache, changed, response, theirs, steps)?;
    Ok(())
}

// ---- a response

/// Takes in an answered response, where no other keys than these are watched, which stand in their order. It answers the keys of
/// which something else is known from now on. It fails for want of memory alone, and then nothing is said of what is kept.
pub fn take_told<L: Ledger>(
    alloc: Global,
    cache: &mut Cache,
    response: Answered,
    keys: &[Key],
    steps: &mut Steps<L>,
) -> Result<List<Key>, Memory>
    requires ready { IsReady response }
    requires only { WatchesOnly cache.old keys.now }
    requires rising { IsStrictlySortedBy key_cmp keys.now }
    ensures step { OnOk result (Stepped cache.old cache.new (told_step (told_as (delivered_in response)))) }
    ensures listed { IfOk result (AreListed cache.old cache.new []) }
    ensures theirs { IfOk result (AreOf response.authority response.kind) }
    ensures few { IfOk result (λ changed. deletes response.kind ≡ false → length changed ≤ length response.parts) }
    ensures cost { steps.new ≤ steps.old + most_deleted response.kind keys.now }
    ensures knows { OnOk result ((s : Setting) (c : Came) (past : List EntryValue) (ps : List PageValue) (now : TimeValue) → option_map delivered_by (answered s c) ≡ Some (delivered_in response) → Knows cache.old (watched_now ps) → Knows cache.new (marked s c past ps now)) }
{
    let mut changed = List::new(alloc);
    let_go(cache, &mut changed, &response, keys, steps)?;
    let Answered {
        authority,
        kind,
        parts,
        ..
    } = response;
    take_parts(cache, &mut changed, authority, kind, parts)?;
    Ok(changed)
}

/// Takes away these keys, which were waited for in vain. It takes no memory.
pub fn take_out(cache: &mut Cache, keys: &[Key])
    ensures { Stepped cache.old cache.new (out_among keys.now) }
{
    for key in keys {
        cache.expire(key);
    }
}
