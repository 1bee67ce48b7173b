//! How many picks took an endpoint in each place.
ghost use Rattle.std.specs.Prelude.{◌≡◌, ◌∷◌, ◌++◌, [], length, Some, None, IfOk, OnOk};
ghost use Rattle.std.specs.BTreeMap.{IsOrdered};
ghost use Rattle.book_picks.specs.CountedPlaces.{AreNumbered, Extends, count_at, count_of, index_of, raised};

use std::alloc::Global;
use std::collections::BTreeMap;
use xc_base::{Memory, Text};

/// A place where endpoints take turns: a locality in a priority of a leaf of a cluster.
#[derive(Drop, PartialEq, Eq, PartialOrd, Ord)]
pub struct PlaceKey {
    pub cluster: Text,
    pub leaf: Text,
    pub priority: u32,
    pub region: Text,
    pub zone: Text,
    pub sub_zone: Text,
}

/// A count for each place that was ever served, so that a place which comes back goes on with its own. A count is named
/// by its index, which never changes.
#[derive(Drop)]
pub struct PlaceCounts {
    /// The index of each place.
    pub places: BTreeMap<PlaceKey, usize>,
    /// How many picks took an endpoint there.
    pub counts: Vec<u64>,
}

impl PlaceCounts {
    /// No places. It takes no memory.
    pub fn new(alloc: Global) -> PlaceCounts
        ensures places { result.places.entries ≡ [] }
        ensures counts { result.counts.items ≡ [] }
    {
        PlaceCounts {
            places: BTreeMap::new(alloc),
            counts: Vec::new(alloc),
        }
    }

    /// The count of an index: 0 where there is none.
    pub fn count(&self, index: Option<usize>) -> u64
        ensures { result ≡ count_at self.now index }
    {
        match index {
            Some(index) => self.counts.get(index).copied().unwrap_or(0),
            None => 0,
        }
    }

    /// Counts one pick more at an index, where there is one. It takes no memory.
    pub fn raise(&mut self, index: Option<usize>)
        ensures places { self.new.places ≡ self.old.places }
        ensures counts { self.new.counts.items ≡ raised self.old.counts.items index }
    {
        let Some(index) = index else {
            return;
        };
        if let Some(count) = self.counts.get_mut(index) {
            *count = count.saturating_add(1);
        }
    }

    /// The index of a place. A new place has its own, with no picks yet. It fails for want of memory alone.
    pub fn index(&mut self, place: PlaceKey) -> Result<usize, Memory>
        ensures index { IfOk result (λ i. index_of self.new place ≡ Some i) }
        ensures extends { OnOk result (Extends self.old self.new) }
    {
        match self.places.get(&place) {
            Some(index) => Ok(*index),
            None => self.add(place),
        }
    }

    /// Adds a place that isn't there.
    fn add(&mut self, place: PlaceKey) -> Result<usize, Memory>
        requires { index_of self.old place ≡ None }
        ensures index { IfOk result (λ i. index_of self.new place ≡ Some i) }
        ensures extends { OnOk result (Extends self.old self.new) }
    {
        let index = self.counts.len();
        self.counts.push(0)?;
        self.places.insert(place, index)?;
        Ok(index)
    }
}
