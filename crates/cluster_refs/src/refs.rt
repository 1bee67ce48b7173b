//! The pins and holds of calls.
ghost use Rattle.std.specs.Prelude.{◌≡◌, ◌↔◌, [], None, Some, IfOk, OnOk, OnErr, IsTrue, IsSome, if◌then◌else◌};
ghost use Rattle.std.specs.Option.{option_copied};
ghost use Rattle.std.specs.BTreeMap.{insert_entry};
ghost use Rattle.std.specs.List.Sorted.{IsStrictlySortedBy};
ghost use Rattle.std.specs.Map.{lookup, keys_of};
ghost use Rattle.xc_base.specs.declared.names.CallId.{CallId};
ghost use Rattle.cluster_refs.specs.CallReferences.{call_cmp, is_call, pin_of, hold_of, IsHeld, IsListOf, SetsPin, SetsHold, AreRetained};

use crate::counts::Counts;
use crate::pins::{Pin, in_order, put_names, put_pins};
use std::alloc::Global;
use std::collections::{BTreeMap, BTreeSet};
use std::marker::Model;
use xc_base::{CallId, List, Memory, Shared, Text};

/// Adds an entry for a call that has none.
fn insert<V: Drop>(map: &mut BTreeMap<CallId, V>, call: CallId, value: V) -> Result<(), Memory>
    ensures entries { OnOk result (map.new.entries ≡ insert_entry call_cmp map.old.entries call value) }
    ensures updates { OnOk result ((other : CallId) → lookup (is_call other) map.new.entries ≡ (if is_call call other then Some value else lookup (is_call other) map.old.entries)) }
    ensures err { OnErr result (map.new.entries ≡ map.old.entries) }
    ensures ordered { IsStrictlySortedBy call_cmp (keys_of map.new.entries) }
{
    map.insert(call, value)?;
    Ok(())
}

/// The lists of names that calls have pinned and the names that they hold. Contracts see both in the order of the
/// calls.
#[derive(Drop)]
pub struct Refs {
    alloc: Global,
    pins: BTreeMap<CallId, Pin>,
    holds: BTreeMap<CallId, Text>,
    counts: Counts,
}

impl Model for Refs {
    ghost use Rattle.cluster_refs.specs.CallReferences.{References, AreKept};

    ghost Value = { References };

    ghost view = { λ r. record { pins = r.pins.entries; holds = r.holds.entries } };

    ghost invariant = { λ r. AreKept r.pins.entries r.holds.entries r.counts };
}

impl Refs {
    /// No pins and no holds. It takes no memory.
    pub fn new(alloc: Global) -> Refs
        ensures { result ≡ record { pins = []; holds = [] } }
    {
        Refs {
            alloc,
            pins: BTreeMap::new(alloc),
            holds: BTreeMap::new(alloc),
            counts: Counts::new(alloc),
        }
    }

    /// Opens the call's pin on the list of this number. It copies no names, so it costs no more than a look-up. Without
    /// memory nothing changes.
    pub fn pin(
        &mut self,
        call: CallId,
        number: u32,
        names: &Shared<List<Text>>,
    ) -> Result<(), Memory>
        requires none { pin_of self.old call ≡ None }
        requires same { IsListOf self.old number names.now }
        ensures ok { OnOk result (SetsPin self.old self.new call (Some (record { number = number; names = names.now }))) }
        ensures err { OnErr result (self.new ≡ self.old) }
    {
        let names = names.share()?;
        insert(&mut self.pins, call, Pin { number, names })
    }

    /// The call holds this name from now on. Without memory nothing changes.
    pub fn hold(&mut self, call: CallId, name: &Text) -> Result<(), Memory>
        requires { hold_of self.old call ≡ None }
        ensures ok { OnOk result (SetsHold self.old self.new call (Some name.now)) }
        ensures err { OnErr result (self.new ≡ self.old) }
    {
        let copy = name.clone()?;
        // A name is held by no more calls than hold any, and these are fewer than 2^63.
        let _most = self.holds.len();
        self.counts.raise(name)?;
        match insert(&mut self.holds, call, copy) {
            Ok(()) => Ok(()),
            Err(fault) => {
                self.counts.lower(name);
                Err(fault)
            }
        }
    }

    /// Closes the call's pin. It answers whether there was one, and takes no memory.
    pub fn unpin(&mut self, call: CallId) -> bool
        ensures had { IsTrue result ↔ IsSome (pin_of self.old call) }
        ensures gone { SetsPin self.old self.new call None }
    {
        match self.pins.remove(&call) {
            Some(_) => return true,
            None => return false,
        }
    }

    /// Ends what the call holds. It answers the name that it held, if it held one, and takes no memory.
    pub fn release(&mut self, call: CallId) -> Option<Text>
        ensures held { result ≡ hold_of self.old call }
        ensures gone { SetsHold self.old self.new call None }
    {
        match self.holds.remove(&call) {
            Some(name) => {
                self.counts.lower(&name);
                Some(name)
            }
            None => None,
        }
    }

    /// Whether a call holds the name. It takes no memory.
    pub fn is_held(&self, name: &Text) -> bool
        ensures { IsTrue result ↔ IsHeld self.now name.now }
    {
        self.counts.of(name) > 0
    }

    /// The name that the call holds, if it holds one.
    pub fn held(&self, call: CallId) -> Option<&Text>
        ensures { option_copied result ≡ hold_of self.now call }
    {
        self.holds.get(&call)
    }

    /// The names with a pin or a hold, in the order of their bytes, each once.
    pub fn retained(&self) -> Result<List<Text>, Memory>
        ensures { IfOk result (AreRetained self.now) }
    {
        let held = self.counts.names()?;
        if self.pins.is_empty() {
            return Ok(held);
        }
        let pins: Vec<&Pin> = self.pins.values().collect(self.alloc)?;
        let mut names = BTreeSet::new(self.alloc);
        put_names(&mut names, held.as_slice())?;
        put_pins(self.alloc, &mut names, pins.as_slice())?;
        in_order(self.alloc, names)
    }
}
