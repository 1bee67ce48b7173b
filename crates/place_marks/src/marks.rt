//! Which places of a list are marked.
ghost use Rattle.std.specs.Prelude.{◌≡◌, ◌<◌, ◌≤◌, ◌^◌, ◌++◌, ◌∷◌, ◌↔◌, ℕ, [], true, false, not, length, get_or, set, replicate, All, Contains, IfOk, OnOk, OnErr};
ghost use Rattle.std.specs.List.{list_any};
ghost use Rattle.place_marks.specs.Marks.{AreRising};

use std::alloc::Global;
use std::marker::Model;
use xc_base::Memory;

/// Which places of a list are marked, from 0, where the list has at most 2^32 places. Only the marked places are kept, so few
/// marks take little memory, however long the list is. Contracts see it as the list of a mark for each place.
#[derive(Drop)]
pub struct Marks {
    /// How many places there are.
    count: usize,
    /// The marked places, in rising order.
    places: Vec<u32>,
}

impl Model for Marks {
    ghost use Rattle.std.specs.Prelude.{List, Bool};
    ghost use Rattle.place_marks.specs.Marks.{AreMarked, marks_of};

    ghost Value = { List Bool };

    ghost view = { λ m. marks_of m.count m.places.items };

    ghost invariant = { λ m. AreMarked m.count m.places.items };
}

impl Marks {
    /// No marks for so many places. It takes no memory.
    pub fn none(alloc: Global, count: usize) -> Marks
        requires { count ≤ 2 ^ 32 }
        ensures { result ≡ replicate count false }
    {
        Marks {
            count,
            places: Vec::new(alloc),
        }
    }

    /// Marks for so many places, all set. It answers want of memory where there is none.
    pub fn all(alloc: Global, count: usize) -> Result<Marks, Memory>
        requires { count ≤ 2 ^ 32 }
        ensures { IfOk result (λ marks. marks ≡ replicate count true) }
    {
        let mut marks = Marks {
            count: 0,
            places: Vec::with_capacity(alloc, count)?,
        };
        for _ in 0..count {
            marks.push(true)?;
        }
        Ok(marks)
    }

    /// Marks a place behind all marked ones. It answers want of memory where there is none, and then nothing has changed.
    pub fn mark(&mut self, place: u32) -> Result<(), Memory>
        requires within { place < length self.old }
        requires last { (later : ℕ) → place ≤ later → get_or self.old later false ≡ false }
        ensures marked { OnOk result (self.new ≡ set self.old place true) }
        ensures kept { OnErr result (self.new ≡ self.old) }
    {
        self.places.push(place)?;
        Ok(())
    }

    /// One place more at the end, marked or not. It answers want of memory where there is none, and then nothing has changed.
    pub fn push(&mut self, mark: bool) -> Result<(), Memory>
        requires { length self.old < 2 ^ 32 }
        ensures pushed { OnOk result (self.new ≡ self.old ++ mark ∷ []) }
        ensures kept { OnErr result (self.new ≡ self.old) }
    {
        if mark {
            self.places.push(self.count as u32)?;
        }
        self.count += 1;
        Ok(())
    }

    /// Whether none is marked.
    pub fn are_none(&self) -> bool
        ensures { result ≡ not (list_any (λ mark. mark) self.now) }
    {
        self.places.as_slice().is_empty()
    }

    /// The marked places, in rising order.
    pub fn places(&self) -> &[u32]
        ensures rising { AreRising result.now }
        ensures within { All (λ place. place < length self.now) result.now }
        ensures marked { (place : ℕ) → (get_or self.now place false ≡ true) ↔ Contains result.now place }
    {
        self.places.as_slice()
    }
}
