//! Marks that are set in any order.
ghost use Rattle.std.specs.Prelude.{◌≡◌, ◌<◌, ◌≤◌, ◌^◌, ◌||◌, ℕ, true, false, length, get_or, set, replicate, IfOk, OnOk};
ghost use Rattle.place_marks.specs.Marks.{marks_of};
ghost use Rattle.dep_manager.specs.LeafPlaces.{has_place};
ghost use Rattle.dep_manager.specs.RenewedConfigs.{joined_marks};

use place_marks::Marks;
use std::alloc::Global;
use std::collections::BTreeSet;
use std::marker::Model;
use xc_base::Memory;

/// Which places of a list are marked, where places are marked one after another, in any order. Only the marked places are kept.
/// Contracts see it as the list of a mark for each place.
#[derive(Drop)]
pub struct MarkSet {
    /// How many places there are.
    count: usize,
    /// The marked places. One behind the last place has no mark.
    places: BTreeSet<u32>,
}

impl Model for MarkSet {
    ghost use Rattle.std.specs.Prelude.{◌≤◌, ◌^◌, List, Bool};
    ghost use Rattle.place_marks.specs.Marks.{marks_of};

    ghost Value = { List Bool };

    ghost view = { λ m. marks_of m.count m.places.keys };

    ghost invariant = { λ m. m.count ≤ 2 ^ 32 };
}

/// The places in front of this one.
fn all_places(alloc: Global, count: usize) -> Result<BTreeSet<u32>, Memory>
    requires { count ≤ 2 ^ 32 }
    ensures { IfOk result (λ places. (at : ℕ) → at < count → has_place places.keys at ≡ true) }
{
    let mut places = BTreeSet::new(alloc);
    for place in 0..count {
        places.insert(place as u32)?;
    }
    Ok(places)
}

/// These places, and some more.
fn with_places(before: BTreeSet<u32>, more: &[u32]) -> Result<BTreeSet<u32>, Memory>
    ensures { IfOk result (λ places. (at : ℕ) → has_place places.keys at ≡ (has_place before.keys at || has_place more.now at)) }
{
    let mut places = before;
    for place in more {
        places.insert(*place)?;
    }
    Ok(places)
}

/// Marks a place behind all marked ones, if it is one of so many.
fn mark_within(marks: &mut Marks, count: usize, place: u32) -> Result<(), Memory>
    requires count { length marks.old ≡ count }
    requires last { (later : ℕ) → place ≤ later → get_or marks.old later false ≡ false }
    ensures { OnOk result (marks.new ≡ set marks.old place true) }
{
    if (place as usize) < count {
        marks.mark(place)?;
    }
    Ok(())
}

/// Marks for so many places, set at these.
fn marks_at(alloc: Global, count: usize, places: BTreeSet<u32>) -> Result<Marks, Memory>
    requires { count ≤ 2 ^ 32 }
    ensures { IfOk result (λ marks. marks ≡ marks_of count places.keys) }
{
    let mut left = places;
    let mut marks = Marks::none(alloc, count);
    while let Some(place) = left.pop_first() {
        mark_within(&mut marks, count, place)?;
    }
    Ok(marks)
}

impl MarkSet {
    /// No marks for so many places. It takes no memory.
    pub fn none(alloc: Global, count: usize) -> MarkSet
        requires { count ≤ 2 ^ 32 }
        ensures { result ≡ replicate count false }
    {
        MarkSet {
            count,
            places: BTreeSet::new(alloc),
        }
    }

    /// Marks for so many places, all set. It answers want of memory where there is none.
    pub fn all(alloc: Global, count: usize) -> Result<MarkSet, Memory>
        requires { count ≤ 2 ^ 32 }
        ensures { IfOk result (λ marks. marks ≡ replicate count true) }
    {
        let places = all_places(alloc, count)?;
        Ok(MarkSet { count, places })
    }

    /// How many places there are.
    pub fn len(&self) -> usize
        ensures count { result ≡ length self.now }
        ensures few { result ≤ 2 ^ 32 }
    {
        self.count
    }

    /// The same marks, and those at some more places. It answers want of memory where there is none.
    pub fn with(self, more: &[u32]) -> Result<MarkSet, Memory>
        ensures count { IfOk result (λ marks. length marks ≡ length self) }
        ensures set { IfOk result (λ marks. (at : ℕ) → at < length self → get_or marks at false ≡ (get_or self at false || has_place more.now at)) }
    {
        let MarkSet { count, places } = self;
        let places = with_places(places, more)?;
        Ok(MarkSet { count, places })
    }

    /// The marks that stand in either list, as long as both go, where the other one has marks for so many places. It answers want
    /// of memory where there is none.
    pub fn joined(self, count: usize, told: &Marks) -> Result<MarkSet, Memory>
        requires { count ≡ length told.now }
        ensures { IfOk result (λ marks. marks ≡ joined_marks self told.now) }
    {
        let MarkSet { count: own, places } = self;
        let places = with_places(places, told.places())?;
        Ok(MarkSet {
            count: own.min(count),
            places,
        })
    }

    /// The same marks, to be read in order. It answers want of memory where there is none.
    pub fn into_marks(self, alloc: Global) -> Result<Marks, Memory>
        ensures { IfOk result (λ marks. marks ≡ self) }
    {
        let MarkSet { count, places } = self;
        marks_at(alloc, count, places)
    }
}
