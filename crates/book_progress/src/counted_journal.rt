//! A journal whose entries are counted by their actors, with the lines that have ended.
ghost use Rattle.std.specs.Prelude.{◌≡◌, ◌<◌, ◌≤◌, ◌-◌, ◌&&◌, ◌==◌, ◌∷◌, ◌↔◌, ℕ, [], length, slice_get, IfOk, OnOk, OnErr, IsOk, IsTrue, Some};
ghost use Rattle.book_progress.specs.ActorCounts.{count_of};
ghost use Rattle.book_progress.specs.EndedLines.{ends_line, has_ended};
ghost use Rattle.book_progress.specs.ProgressKept.{counts_of, most_entries};

use crate::entry_counts::ends_line;
use crate::progress::Progress;
use call_journal::{Count, Entry, Journal, MOST_ENTRIES};
use std::alloc::Global;
use std::marker::Model;
use xc_base::Memory;

/// The lines of a session that come before its first entry: each later one makes an entry at least. Of a session that has
/// room for so many entries this many lines more are kept.
const HEAD_LINES: usize = 8;

/// A journal with a count for each actor, and with the lines that have ended. Contracts see the entries with the newest
/// first, how many more it takes without memory, and the counts.
#[derive(Drop)]
pub struct CountedJournal {
    journal: Journal,
    progress: Progress,
}

impl Model for CountedJournal {
    ghost use Rattle.book_progress.specs.ProgressKept.{CountedView, IsCounted};

    ghost Value = { CountedView };

    ghost view = { λ c. record { entries = c.journal.entries; spare = c.journal.spare; counts = c.progress.counts } };

    ghost invariant = { λ c. IsCounted c.journal.entries c.progress };
}

/// Whether an entry ends the line.
fn is_end(entry: &Entry, line: u32) -> bool
    ensures { result ≡ (entry.now.line == line && ends_line entry.now.what) }
{
    if entry.line == line {
        return ends_line(&entry.what);
    }
    false
}

/// Whether an entry of the journal ends the line. It looks at all of them.
fn is_ended_in(journal: &Journal, line: u32) -> bool
    ensures { result ≡ has_ended line journal.now.entries }
{
    for place in 0..journal.len() {
        if is_end(journal.at(place), line) {
            return true;
        }
    }
    false
}

/// Adds an entry where there is room.
fn push_entry(journal: &mut Journal, entry: Entry)
    requires { 0 < journal.old.spare }
    ensures { journal.new ≡ record { entries = entry ∷ journal.old.entries; spare = journal.old.spare - 1 } }
{
    match journal.push(entry) {
        Ok(()) => {}
        Err(_) => {}
    }
}

impl CountedJournal {
    /// An empty journal of so many actors, with room for so many entries. It fails for want of memory alone.
    pub fn new(alloc: Global, actors: u16, room: u32) -> Result<CountedJournal, Memory>
        ensures entries { IfOk result (λ journal. journal.entries ≡ []) }
        ensures spare { IfOk result (λ journal. journal.spare ≡ room) }
        ensures counts { IfOk result (λ journal. journal.counts ≡ counts_of actors []) }
    {
        let journal = Journal::new(alloc, room)?;
        let progress = Progress::new(alloc, actors as usize, room as usize + HEAD_LINES)?;
        Ok(CountedJournal { journal, progress })
    }

    /// How many actors there are.
    pub fn actors(&self) -> usize
        ensures { result ≡ length self.now.counts }
    {
        self.progress.actors()
    }

    /// The count of an actor. It takes no memory.
    pub fn count(&self, actor: u16) -> Count
        requires { actor < length self.now.counts }
        ensures kept { slice_get self.now.counts actor ≡ Some result }
        ensures history { result ≡ count_of actor self.now.entries }
    {
        let count = self.progress.count(actor);
        count
    }

    /// Whether the journal has 1,048,576 entries, and takes no more.
    pub fn is_full(&self) -> bool
        ensures { IsTrue result ↔ (length self.now.entries ≡ most_entries) }
    {
        self.journal.len() == MOST_ENTRIES
    }

    /// How many entries there are.
    pub fn len(&self) -> u32
        ensures { result ≡ length self.now.entries }
    {
        self.journal.len()
    }

    /// Whether an entry ends the line. It takes no memory, and looks at no entry where the line is among the first: those
    /// are the lines of a session that has no more entries than the journal was made for.
    pub fn has_ended(&self, line: u32) -> bool
        ensures { result ≡ has_ended line self.now.entries }
    {
        match self.progress.has_ended(line) {
            Some(ended) => ended,
            None => is_ended_in(&self.journal, line),
        }
    }

    /// Makes room for an entry where there is none. It fails for want of memory, and then no room is spare.
    pub fn reserve(&mut self) -> Result<(), Memory>
        requires { length self.old.entries < most_entries }
        ensures room { OnOk result (0 < self.new.spare) }
        ensures fails { 0 < self.old.spare → IsOk result }
        ensures entries { self.new.entries ≡ self.old.entries }
        ensures counts { self.new.counts ≡ self.old.counts }
        ensures kept { self.old.spare ≤ self.new.spare }
    {
        if self.journal.spare() == 0 {
            self.journal.reserve(1)?;
        }
        Ok(())
    }

    /// Adds an entry of one of the actors, where there is room. It takes no memory.
    pub fn add(&mut self, entry: Entry)
        requires actor { entry.actor < length self.old.counts }
        requires room { 0 < self.old.spare }
        requires few { length self.old.entries < most_entries }
        ensures entries { self.new.entries ≡ entry ∷ self.old.entries }
        ensures spare { self.new.spare ≡ self.old.spare - 1 }
        ensures counts { self.new.counts ≡ counts_of (length self.old.counts) (entry ∷ self.old.entries) }
    {
        self.progress.add(&entry);
        push_entry(&mut self.journal, entry);
    }

    /// The journal alone. It takes no memory.
    pub fn into_journal(self) -> Journal
        ensures { result.entries ≡ self.entries }
    {
        self.journal
    }
}
