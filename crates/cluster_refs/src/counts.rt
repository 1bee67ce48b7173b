//! How many calls hold each name.
ghost use Rattle.std.specs.Prelude.{◌≡◌, ◌↔◌, ◌<◌, ◌^◌, ℕ, List, ◌∷◌, [], map, Contains, OnOk, OnErr, IfOk};
ghost use Rattle.std.specs.List.Sorted.{IsStrictlySortedBy};
ghost use Rattle.cluster_refs.specs.ReferredNames.{count_of, name_cmp, Raises, Lowers};

use std::alloc::Global;
use std::collections::BTreeMap;
use std::marker::Model;
use xc_base::{List, Memory, Text};

/// How many calls hold each name, where there are any. Contracts see the names with their counts, in the order of the
/// names.
#[derive(Drop)]
pub(crate) struct Counts {
    alloc: Global,
    counts: BTreeMap<Text, usize>,
}

impl Model for Counts {
    ghost use Rattle.std.specs.Prelude.{List, ℕ};
    ghost use Rattle.cluster_refs.specs.ReferredNames.{AllCounted};

    ghost Value = { List (List ℕ × ℕ) };

    ghost view = { λ c. c.counts.entries };

    ghost invariant = { λ c. AllCounted c.counts.entries };
}

impl Counts {
    /// No counts. It takes no memory.
    pub(crate) fn new(alloc: Global) -> Counts
        ensures { result ≡ [] }
    {
        Counts {
            alloc,
            counts: BTreeMap::new(alloc),
        }
    }

    /// How often the name is counted.
    pub(crate) fn of(&self, name: &Text) -> usize
        ensures { result ≡ count_of self.now name.now }
    {
        self.counts.get(name).copied().unwrap_or(0)
    }

    /// Counts the name once more, where it is counted less than 2^63 times.
    pub(crate) fn raise(&mut self, name: &Text) -> Result<(), Memory>
        requires room { count_of self.old name.now < 2 ^ 63 }
        ensures ok { OnOk result (Raises self.old self.new (name.now ∷ [])) }
        ensures err { OnErr result (self.new ≡ self.old) }
    {
        let more = self.of(name) + 1;
        self.counts.insert(name.clone()?, more)?;
        Ok(())
    }

    /// Counts the name once less, where it is counted. It takes no memory.
    pub(crate) fn lower(&mut self, name: &Text)
        ensures { Lowers self.old self.new (name.now ∷ []) }
    {
        let count = self.of(name);
        if count > 1 {
            if let Some(place) = self.counts.get_mut(name) {
                *place = count - 1;
            }
        } else {
            self.counts.remove(name);
        }
    }

    /// The names that are counted, in the order of their bytes.
    pub(crate) fn names(&self) -> Result<List<Text>, Memory>
        ensures members { IfOk result (λ names. (name : List ℕ) → Contains names name ↔ (0 < count_of self.now name)) }
        ensures rising { IfOk result (IsStrictlySortedBy name_cmp) }
    {
        let names: Vec<&Text> = self.counts.keys().collect(self.alloc)?;
        copies(self.alloc, names.as_slice())
    }
}

/// A copy of each name.
fn copies(alloc: Global, names: &[&Text]) -> Result<List<Text>, Memory>
    ensures { IfOk result (λ copies. copies ≡ map (λ name. name.now) names.now) }
{
    let mut copies = List::new(alloc);
    for name in names {
        copies.push((*name).clone()?)?;
    }
    Ok(copies)
}
