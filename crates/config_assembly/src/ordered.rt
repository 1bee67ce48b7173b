//! Names and keys in order.
ghost use Rattle.std.specs.Prelude.{◌≡◌, IfOk, OnOk, [], ◌∷◌};
ghost use Rattle.std.specs.List.Sorted.{IsStrictlySortedBy};
ghost use Rattle.xc_keys.specs.Keys.{key_cmp};
ghost use Rattle.config_assembly.specs.Orders.{name_cmp, put_in};

use std::alloc::Global;
use std::collections::BTreeSet;
use xc_base::{Key, List, Memory, Text};

/// Puts a name into a set of names.
pub fn put_name(names: &mut BTreeSet<Text>, name: &Text) -> Result<(), Memory>
    ensures { OnOk result (names.new.keys ≡ put_in name_cmp names.old.keys (name.now ∷ [])) }
{
    names.insert(name.clone()?)?;
    Ok(())
}

/// Puts names into a set of names.
pub fn put_names(names: &mut BTreeSet<Text>, more: &[Text]) -> Result<(), Memory>
    ensures { OnOk result (names.new.keys ≡ put_in name_cmp names.old.keys more.now) }
{
    for name in more {
        put_name(names, name)?;
    }
    Ok(())
}

/// The names of a set as a list, in the order of their bytes.
pub fn in_order(alloc: Global, names: BTreeSet<Text>) -> Result<List<Text>, Memory>
    ensures names { IfOk result (λ list. list ≡ names.keys) }
    ensures rising { IfOk result (IsStrictlySortedBy name_cmp) }
{
    let names = names.into_iter().collect(alloc)?;
    Ok(List::from_vec(names))
}

/// Puts a key into a set of keys.
pub fn put_key(keys: &mut BTreeSet<Key>, key: Key) -> Result<(), Memory>
    ensures { OnOk result (keys.new.keys ≡ put_in key_cmp keys.old.keys (key ∷ [])) }
{
    keys.insert(key)?;
    Ok(())
}

/// The keys of a set as a list, in their order.
pub fn keys_in_order(alloc: Global, keys: BTreeSet<Key>) -> Result<List<Key>, Memory>
    ensures { IfOk result (λ list. list ≡ keys.keys) }
{
    let keys = keys.into_iter().collect(alloc)?;
    Ok(List::from_vec(keys))
}

/// The same keys, which share their names.
pub fn copy_keys(alloc: Global, keys: &[Key]) -> Result<List<Key>, Memory>
    ensures { IfOk result (λ list. list ≡ keys.now) }
{
    let mut list = List::from_vec(Vec::with_capacity(alloc, keys.len())?);
    for key in keys {
        list.push(key.clone()?)?;
    }
    Ok(list)
}
