//! What a lane's next step finds in a Book before it is made.
ghost use Rattle.std.specs.Prelude.{◌≡◌, ◌≢◌, ◌<◌, ◌↔◌, length, slice_get, IfSome, IsTrue, None, Some, false};
ghost use Rattle.book_progress.specs.EndedLines.{IsOpen};
ghost use Rattle.xds_book.specs.BookEntries.{IsLaneOf};

use call_journal::Count;
use xds_book::{Book, Job, Lane};

/// A line, and the line that gates it: that one has to end before it.
#[derive(Clone, Copy)]
pub struct GatedLine {
    pub line: u32,
    pub after: Option<u32>,
}

/// What a Book and a lane count of one actor, where they count differently.
#[derive(Clone, Copy)]
pub struct Difference {
    /// The Book's count of the lane's actor.
    pub book: Count,
    /// The lane's.
    pub lane: Count,
}

/// Whether the line that gates a step, if one does, has ended.
fn is_open<J: Job>(book: &Book<J>, after: Option<u32>) -> bool
    ensures { IsTrue result ↔ IsOpen after book.now.entries }
{
    match after {
        Some(line) => book.line_done(line),
        None => true,
    }
}

/// Whether a step of the lane has to wait for the line that gates it. A lane that isn't of the Book waits for nothing, since
/// its step isn't made. It takes no memory.
pub fn has_to_wait<J: Job>(book: &Book<J>, lane: &Lane<J>, after: Option<u32>) -> bool
    ensures gate { result ≡ false → IsLaneOf lane.now book.now → IsOpen after book.now.entries }
    ensures lane { IsTrue result → IsLaneOf lane.now book.now }
    ensures need { IsTrue result → ¬ IsOpen after book.now.entries }
{
    book.is_of(lane) && !is_open(book, after)
}

/// What a Book and a lane count of the lane's actor, where they count differently; None where the lane is of the Book. It takes
/// no memory.
pub fn find_difference<J: Job>(book: &Book<J>, lane: &Lane<J>) -> Option<Difference>
    requires actor { lane.now.actor < length book.now.counts }
    ensures own { result ≡ None → IsLaneOf lane.now book.now }
    ensures differ { IfSome result (λ d. d.book ≢ d.lane) }
    ensures book { IfSome result (λ d. slice_get book.now.counts lane.now.actor ≡ Some d.book) }
    ensures lane { IfSome result (λ d. d.lane ≡ lane.now.count) }
{
    if book.is_of(lane) {
        return None;
    }
    Some(Difference {
        book: book.count(lane.actor()),
        lane: lane.count(),
    })
}
