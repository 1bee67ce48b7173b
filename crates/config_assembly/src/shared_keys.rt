//! Keys that several owners share.
ghost use Rattle.std.specs.Prelude.{◌≡◌, [], IfOk};

use std::alloc::Global;
use std::marker::Model;
use xc_base::{Key, List, Memory, Shared};

/// Keys in a list that several owners share. Contracts see the list.
#[derive(Drop)]
pub struct SharedKeys {
    keys: Option<Shared<List<Key>>>,
}

impl Model for SharedKeys {
    ghost use Rattle.std.specs.Prelude.{List, [], unwrap_or};
    ghost use Rattle.xc_base.specs.declared.names.Key.{Key};

    ghost Value = { List Key };

    ghost view = { λ k. unwrap_or k.keys [] };
}

impl SharedKeys {
    /// No keys. It takes no memory.
    pub fn new() -> SharedKeys
        ensures { result ≡ [] }
    {
        SharedKeys { keys: None }
    }

    /// These keys. It fails for want of memory alone.
    pub fn of(alloc: Global, keys: List<Key>) -> Result<SharedKeys, Memory>
        ensures { IfOk result (λ shared. shared ≡ keys) }
    {
        let keys = Shared::new(alloc, keys)?;
        Ok(SharedKeys { keys: Some(keys) })
    }

    /// One more owner of the same keys. No key is copied; it fails only where the count of owners is at its end.
    pub fn share(&self) -> Result<SharedKeys, Memory>
        ensures { IfOk result (λ shared. shared ≡ self.now) }
    {
        match &self.keys {
            Some(keys) => {
                let keys = keys.share()?;
                Ok(SharedKeys { keys: Some(keys) })
            }
            None => Ok(SharedKeys { keys: None }),
        }
    }

    /// The keys, to read.
    pub fn as_slice(&self) -> &[Key]
        ensures { result.now ≡ self.now }
    {
        match &self.keys {
            Some(keys) => keys.get().as_slice(),
            None => &[],
        }
    }
}
