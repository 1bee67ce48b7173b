//! Which keys are watched.
ghost use Rattle.std.specs.Prelude.{◌≡◌, ◌&&◌, not, IfOk, OnOk, None, if◌then◌else◌};
ghost use Rattle.xc_base.specs.declared.names.Key.{Key as KeyValue};
ghost use Rattle.xds_cache.specs.KeptFates.{known_of, watched};
ghost use Rattle.config_assembly.specs.Watching.{IsKept, IsWatching, has_key};

use std::alloc::Global;
use std::collections::BTreeSet;
use xc_base::{Key, Memory};
use xds_cache::Cache;

/// The keys as a set.
fn set_of(alloc: Global, keys: &[Key]) -> Result<BTreeSet<Key>, Memory>
    ensures { IfOk result (λ set. (key : KeyValue) → has_key set.keys key ≡ has_key keys.now key) }
{
    let mut set = BTreeSet::new(alloc);
    for key in keys {
        set.insert(key.clone()?)?;
    }
    Ok(set)
}

/// Watches these keys too.
fn watch_all(cache: &mut Cache, keys: &[Key]) -> Result<(), Memory>
    ensures { OnOk result ((key : KeyValue) → known_of cache.new key ≡ (if has_key keys.now key then watched (known_of cache.old key) else known_of cache.old key)) }
{
    for key in keys {
        cache.watch(key)?;
    }
    Ok(())
}

/// Watches those of these keys no more that aren't among the others.
fn unwatch_others(cache: &mut Cache, keys: &[Key], others: &BTreeSet<Key>)
    ensures { (key : KeyValue) → known_of cache.new key ≡ (if has_key keys.now key && not (has_key others.now.keys key) then None else known_of cache.old key) }
{
    for key in keys {
        if !others.contains(key) {
            cache.unwatch(key);
        }
    }
}

/// Watches the reached keys and no others, where those that were reached before are watched.
pub fn watch_reached(
    alloc: Global,
    cache: &mut Cache,
    before: &[Key],
    reached: &[Key],
) -> Result<(), Memory>
    requires { IsKept cache.old before.now reached.now }
    ensures { OnOk result (IsWatching cache.old cache.new reached.now) }
{
    let set = set_of(alloc, reached)?;
    unwatch_others(cache, before, &set);
    watch_all(cache, reached)
}
