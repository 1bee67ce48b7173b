//! Which streams may have to ask.
ghost use Rattle.std.specs.Prelude.{◌≡◌, ◌<◌, ◌≤◌, ◌^◌, ℕ, length, slice_get, slice_set, replicate, Some, true, false, IfOk};
ghost use Rattle.book_streams.specs.Settling.{NoneBelow, NoneFrom};

use std::alloc::Global;
use std::marker::Model;
use xc_base::Memory;

/// A mark for each stream that may have to ask. All marks lie within a range of places, so that where there are few, few
/// places are looked at. Contracts see whether each place is marked.
#[derive(Drop)]
pub struct StreamMarks {
    marks: Vec<bool>,
    first: usize,
    end: usize,
}

impl Model for StreamMarks {
    ghost use Rattle.std.specs.Prelude.{List, Bool, ◌≤◌, length};
    ghost use Rattle.book_streams.specs.Settling.{NoneBelow, NoneFrom};

    ghost Value = { List Bool };

    ghost view = { λ m. m.marks.items };

    ghost invariant = { λ m. NoneBelow m.marks.items m.first × NoneFrom m.marks.items m.end × (m.first ≤ length m.marks.items) × (m.end ≤ length m.marks.items) };
}

/// The first place of a range, once it has a further place.
fn first_with(first: usize, end: usize, place: usize) -> usize
    ensures place { result ≤ place }
    ensures range { (p : ℕ) → first ≤ p → p < end → result ≤ p }
{
    if end <= first || place < first {
        place
    } else {
        first
    }
}

/// The end of a range, once it has a further place.
fn end_with(first: usize, end: usize, place: usize) -> usize
    requires { place < 2 ^ 63 }
    ensures place { place < result }
    ensures range { (p : ℕ) → first ≤ p → p < end → p < result }
    ensures least { (n : ℕ) → end ≤ n → place < n → result ≤ n }
{
    if end <= first || end <= place {
        place + 1
    } else {
        end
    }
}

impl StreamMarks {
    /// So many streams, none of which is marked.
    pub fn new(alloc: Global, count: usize) -> Result<StreamMarks, Memory>
        ensures { IfOk result (λ marks. marks ≡ replicate count false) }
    {
        let marks = vec![in alloc; false; count]?;
        Ok(StreamMarks {
            marks,
            first: 0,
            end: 0,
        })
    }

    /// No place before this one is marked.
    pub fn first(&self) -> usize
        ensures none { NoneBelow self.now result }
        ensures within { result ≤ length self.now }
    {
        self.first
    }

    /// No place from this one on is marked.
    pub fn end(&self) -> usize
        ensures none { NoneFrom self.now result }
        ensures within { result ≤ length self.now }
    {
        self.end
    }

    /// Whether a place is marked.
    pub fn is_marked(&self, place: usize) -> bool
        requires { place < length self.now }
        ensures { slice_get self.now place ≡ Some result }
    {
        self.marks[place]
    }

    /// Marks a place, where there is one.
    pub fn mark(&mut self, place: usize)
        ensures { self.new ≡ slice_set self.old place true }
    {
        if place < self.marks.len() {
            let (first, end) = (self.first, self.end);
            self.first = first_with(first, end, place);
            self.end = end_with(first, end, place);
            self.marks[place] = true;
        }
    }

    /// Takes the mark of a place away, before which none is marked.
    pub fn pass(&mut self, place: usize)
        requires within { place < length self.old }
        requires first { NoneBelow self.old place }
        ensures { self.new ≡ slice_set self.old place false }
    {
        self.marks[place] = false;
        self.first = place + 1;
    }
}
