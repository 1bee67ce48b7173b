//! The keys that streams were told last, with the names among them.
ghost use Rattle.std.specs.Prelude.{◌≡◌, ◌==◌, ℕ, [], None, Some, if◌then◌else◌, option_copied, IfOk, OnOk, OnErr};
ghost use Rattle.book_streams.specs.StreamsKept.{names_among};
ghost use Rattle.book_streams.specs.ToldNames.{kept_for};

use crate::asking::names_among;
use ads_stream::Names;
use config_assembly::ordered::copy_keys;
use std::alloc::Global;
use std::collections::BTreeMap;
use std::marker::Model;
use xc_base::{Authority, Key, List, Memory};

/// The names of some authorities.
#[derive(Drop)]
struct KeptNames {
    names: BTreeMap<u16, Names>,
}

impl KeptNames {
    /// Those of none. It takes no memory.
    fn new(alloc: Global) -> KeptNames
        ensures { (place : ℕ) → kept_for result place ≡ None }
    {
        KeptNames {
            names: BTreeMap::new(alloc),
        }
    }

    /// The names of an authority, where they are kept.
    fn of(&self, authority: Authority) -> Option<&Names>
        ensures { option_copied result ≡ kept_for self.now authority.0 }
    {
        self.names.get(&authority.0)
    }

    /// Keeps the names of an authority.
    fn keep(&mut self, authority: Authority, names: Names) -> Result<(), Memory>
        ensures ok { OnOk result ((place : ℕ) → kept_for self.new place ≡ (if authority.0 == place then Some names else kept_for self.old place)) }
        ensures err { OnErr result ((place : ℕ) → kept_for self.new place ≡ kept_for self.old place) }
    {
        self.names.insert(authority.0, names)?;
        Ok(())
    }
}

/// The keys that streams were told last. The names of an authority among them are listed when its stream first asks for them,
/// and shared by all requests until other keys are told. Contracts see the keys.
#[derive(Drop)]
pub struct ToldKeys {
    alloc: Global,
    keys: List<Key>,
    kept: KeptNames,
}

impl Model for ToldKeys {
    ghost use Rattle.std.specs.Prelude.{List};
    ghost use Rattle.xc_base.specs.declared.names.Key.{Key};
    ghost use Rattle.book_streams.specs.ToldNames.{AreNamesAmong};

    ghost Value = { List Key };

    ghost view = { λ t. t.keys };

    ghost invariant = { λ t. AreNamesAmong t.keys t.kept };
}

impl ToldKeys {
    /// No keys. It takes no memory.
    pub fn new(alloc: Global) -> ToldKeys
        ensures { result ≡ [] }
    {
        ToldKeys {
            alloc,
            keys: List::new(alloc),
            kept: KeptNames::new(alloc),
        }
    }

    /// A copy of these keys. It fails for want of memory alone.
    pub fn of(alloc: Global, keys: &[Key]) -> Result<ToldKeys, Memory>
        ensures { IfOk result (λ told. told ≡ keys.now) }
    {
        Ok(ToldKeys {
            alloc,
            keys: copy_keys(alloc, keys)?,
            kept: KeptNames::new(alloc),
        })
    }

    /// The keys, to read.
    pub fn as_slice(&self) -> &[Key]
        ensures { result.now ≡ self.now }
    {
        self.keys.as_slice()
    }

    /// The names of an authority among the keys, kind by kind. It fails for want of memory alone.
    pub fn names(&mut self, authority: Authority) -> Result<Names, Memory>
        ensures names { IfOk result (λ names. names ≡ names_among self.old authority) }
        ensures stays { self.new ≡ self.old }
    {
        if let Some(names) = self.kept.of(authority) {
            return names.share();
        }
        let names = names_among(self.alloc, authority, self.keys.as_slice())?;
        self.kept.keep(authority, names.share()?)?;
        Ok(names)
    }
}
