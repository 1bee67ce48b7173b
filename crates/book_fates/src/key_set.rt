//! Keys as a set.
ghost use Rattle.std.specs.Prelude.{◌≡◌, IfOk, OnOk, [], ◌∷◌};
ghost use Rattle.xc_keys.specs.Keys.{key_cmp};
ghost use Rattle.config_assembly.specs.Orders.{put_in, sorted};

use config_assembly::ordered::put_key;
use std::alloc::Global;
use std::collections::BTreeSet;
use xc_base::{Key, Memory};

/// Puts a copy of a key into a set of keys.
fn put_copy(keys: &mut BTreeSet<Key>, key: &Key) -> Result<(), Memory>
    ensures { OnOk result (keys.new.keys ≡ put_in key_cmp keys.old.keys (key.now ∷ [])) }
{
    put_key(keys, key.clone()?)
}

/// The keys as a set. It fails for want of memory alone.
pub fn key_set(alloc: Global, keys: &[Key]) -> Result<BTreeSet<Key>, Memory>
    ensures { IfOk result (λ set. set.keys ≡ sorted key_cmp keys.now) }
{
    let mut set = BTreeSet::new(alloc);
    for key in keys {
        put_copy(&mut set, key)?;
    }
    Ok(set)
}
