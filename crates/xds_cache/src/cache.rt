//! The cache of fates.
ghost use Rattle.std.specs.Prelude.{◌≡◌, ◌+◌, [], OnOk, OnErr, IfOk, IsOk, unwrap_or, is_some};
ghost use Rattle.xds_cache.specs.declared.fate.Known.TheVariants.{Wanted};
ghost use Rattle.xds_config.specs.Values.{IsLawfulValue, kind_of};
ghost use Rattle.xds_cache.specs.KeptFates.{IsLawfulAt, Changes, TellsChange, watched, unwatched, settled, accepted, refused, taken_away, fate_of, is_value, known_of, shown};

use crate::fate::{Fate, Known, reason_of};
use std::alloc::Global;
use std::collections::BTreeMap;
use std::marker::Model;
use std::mem::replace;
use std::sync::ledger::Ledger;
use xc_base::{Home, Key, Memory, Reason, Same, Steps};
use xds_config::Value;

/// The watched keys and what is known of each, which contracts see as the list of both in the order of the keys. A
/// value that is kept passed its checks and is of its key's kind.
#[derive(Drop)]
pub struct Cache {
    known: BTreeMap<Key, Known>,
}

impl Model for Cache {
    ghost use Rattle.xds_cache.specs.KeptFates.{Watched, AllLawful};

    ghost Value = { Watched };

    ghost view = { λ c. c.known.entries };

    ghost invariant = { λ c. AllLawful c.known.entries };
}

/// Drops what was known of a key.
fn let_go(before: Option<Known>) {
    drop(before);
}

impl Cache {
    /// A cache without keys. It takes no memory.
    pub fn new(alloc: Global) -> Cache
        ensures { result ≡ [] }
    {
        Cache {
            known: BTreeMap::new(alloc),
        }
    }

    /// Watches the key from now on. One that is watched keeps its fate. Without memory nothing changes.
    pub fn watch(&mut self, key: &Key) -> Result<(), Memory>
        ensures ok { OnOk result (Changes self.old self.new key.now watched) }
        ensures err { OnErr result (self.new ≡ self.old) }
    {
        if !self.known.contains_key(key) {
            let before = self.known.insert(key.clone()?, Known::Wanted)?;
            let_go(before);
        }
        Ok(())
    }

    /// Watches the key no more, and forgets its fate. It takes no memory.
    pub fn unwatch(&mut self, key: &Key)
        ensures { Changes self.old self.new key.now unwatched }
    {
        let before = self.known.remove(key);
        let_go(before);
    }

    /// What is known of the key, without its home.
    fn known_fate(&self, key: &Key) -> Fate<'_>
        ensures fate { shown result ≡ unwrap_or (known_of self.now key.now) Wanted }
        ensures lawful { IsLawfulAt key.now (shown result) }
    {
        match self.known.get(key) {
            Some(known) => known.fate(),
            None => Fate::Wanted,
        }
    }

    /// Whether a value of the key is known.
    fn has_value(&self, key: &Key) -> bool
        ensures { result ≡ is_value (unwrap_or (known_of self.now key.now) Wanted) }
    {
        matches!(self.known_fate(key), Fate::Value(_))
    }

    /// Puts this in place of what is known of the key, where it is watched and something else is known of it. It answers whether
    /// it does.
    fn settle(&mut self, key: &Key, known: Known) -> bool
        requires { IsLawfulAt key.now known }
        ensures change { Changes self.old self.new key.now (settled known) }
        ensures told { TellsChange result self.old key.now (settled known) }
    {
        let Some(place) = self.known.get_mut(key) else {
            let_go(Some(known));
            return false;
        };
        if place.same(&known) {
            let_go(Some(known));
            return false;
        }
        let before = replace(place, known);
        let_go(Some(before));
        true
    }

    /// Takes in a valid resource, where the key is watched. It always succeeds, and answers whether something else is known of
    /// the key from now on.
    pub fn accept(&mut self, key: &Key, value: Value) -> Result<bool, Memory>
        requires lawful { IsLawfulValue value }
        requires kind { kind_of value ≡ key.now.kind }
        ensures ok { IsOk result }
        ensures change { Changes self.old self.new key.now (accepted value) }
        ensures told { IfOk result (λ is_other. TellsChange is_other self.old key.now (accepted value)) }
    {
        let is_other = self.settle(key, Known::Value(value));
        Ok(is_other)
    }

    /// Takes in that a resource was refused, where the key is watched: a value stays, and the reason takes the place of
    /// all else. It always succeeds, and answers whether something else is known of the key from now on.
    pub fn refuse(&mut self, key: &Key, reason: Reason) -> Result<bool, Memory>
        ensures ok { IsOk result }
        ensures change { Changes self.old self.new key.now (refused reason) }
        ensures told { IfOk result (λ is_other. TellsChange is_other self.old key.now (refused reason)) }
    {
        if self.has_value(key) {
            return Ok(false);
        }
        let is_other = self.settle(key, Known::Invalid(reason));
        Ok(is_other)
    }

    /// Takes in that the resource was deleted, where the key is watched. It takes no memory, and answers whether something else is
    /// known of the key from now on.
    pub fn delete(&mut self, key: &Key) -> bool
        ensures change { Changes self.old self.new key.now taken_away }
        ensures told { TellsChange result self.old key.now taken_away }
    {
        self.settle(key, Known::Absent)
    }

    /// Takes in that the resource was waited for in vain, where the key is watched. It takes no memory.
    pub fn expire(&mut self, key: &Key)
        ensures { Changes self.old self.new key.now taken_away }
    {
        self.settle(key, Known::Absent);
    }

    /// Whether the key is watched. It takes no memory.
    pub fn is_watched(&self, key: &Key) -> bool
        ensures { result ≡ is_some (known_of self.now key.now) }
    {
        self.known.contains_key(key)
    }

    /// The fate of the key: the reason where it has no home, else what is known of it, and wanted where it
    /// isn't watched. It counts one step and takes no memory.
    pub fn get<L: Ledger>(&self, key: &Key, steps: &mut Steps<L>) -> Fate<'_>
        ensures fate { shown result ≡ fate_of self.now key.now }
        ensures lawful { IsLawfulAt key.now (shown result) }
        ensures one_step { steps.new ≡ steps.old + 1 }
    {
        steps.tick();
        match key.home {
            Home::At(_) => self.known_fate(key),
            Home::Nowhere(fault) => Fate::Invalid(reason_of(fault)),
        }
    }
}
