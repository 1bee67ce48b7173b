//! The counts of the actors, and the lines that have ended.
ghost use Rattle.std.specs.Prelude.{◌≡◌, ◌<◌, ◌≤◌, ◌-◌, ◌^◌, ◌∷◌, ◌↔◌, ℕ, List, [], length, slice_get, slice_set, IfOk, IfSome, IsSome, Some, false, true, replicate};
ghost use Rattle.call_journal.specs.declared.entry.Entry.{Entry as EntryValue};
ghost use Rattle.call_journal.specs.declared.plan.Count.{Count as CountValue};
ghost use Rattle.book_progress.specs.ActorCounts.{count_of, no_count};
ghost use Rattle.book_progress.specs.EndedLines.{has_ended};
ghost use Rattle.book_progress.specs.ProgressKept.{counts_of, ends_of, tally_of};

use crate::entry_counts::{count_after, ends_line};
use call_journal::{Count, Entry};
use std::alloc::Global;
use std::marker::Model;
use xc_base::Memory;

/// The counts of all actors, and for each of the first lines whether it has ended. No call takes memory once it is made.
#[derive(Drop)]
pub struct Progress {
    counts: Vec<Count>,
    ended: Vec<bool>,
}

impl Model for Progress {
    ghost use Rattle.book_progress.specs.ProgressKept.{Tally};

    ghost Value = { Tally };

    ghost view = { λ p. record { counts = p.counts.items; ended = p.ended.items } };
}

/// An actor that has done nothing.
const NOTHING: Count = Count { ended: 0, pins: 0 };

/// A count of nothing for each actor.
fn no_counts(alloc: Global, actors: usize) -> Result<Vec<Count>, Memory>
    ensures { IfOk result (λ counts. counts.items ≡ replicate actors no_count) }
{
    let counts = vec![in alloc; NOTHING; actors]?;
    Ok(counts)
}

/// No mark for each line.
fn no_marks(alloc: Global, lines: usize) -> Result<Vec<bool>, Memory>
    ensures { IfOk result (λ marks. marks.items ≡ replicate lines false) }
{
    let marks = vec![in alloc; false; lines]?;
    Ok(marks)
}

/// Puts an actor's count.
fn put_count(counts: &mut Vec<Count>, actor: usize, count: Count)
    requires { actor < length counts.old.items }
    ensures { counts.new.items ≡ slice_set counts.old.items actor count }
{
    counts[actor] = count;
}

/// Marks a line as ended, where it is one of the first.
fn mark_ended(ended: &mut Vec<bool>, line: usize)
    ensures within { line < length ended.old.items → ended.new.items ≡ slice_set ended.old.items line true }
    ensures past { length ended.old.items ≤ line → ended.new.items ≡ ended.old.items }
{
    if line < ended.len() {
        ended[line] = true;
    }
}

/// The count at a place.
fn count_in(counts: &Vec<Count>, actor: usize) -> Count
    requires { actor < length counts.now.items }
    ensures { slice_get counts.now.items actor ≡ Some result }
{
    counts[actor]
}

/// Counts an entry of one of the actors.
fn count_entry(counts: &mut Vec<Count>, entry: &Entry)
    requires actor { entry.now.actor < length counts.old.items }
    requires ended { (count : CountValue) → slice_get counts.old.items entry.now.actor ≡ Some count → count.ended < 2 ^ 32 - 1 }
    requires pins { (count : CountValue) → slice_get counts.old.items entry.now.actor ≡ Some count → count.pins < 2 ^ 32 - 1 }
    ensures { (n : ℕ) (past : List EntryValue) → counts.old.items ≡ counts_of n past → counts.new.items ≡ counts_of n (entry.now ∷ past) }
{
    let count = count_in(counts, entry.actor as usize);
    let next = count_after(&entry.what, count);
    put_count(counts, entry.actor as usize, next);
}

/// Marks the line that an entry ends, if it ends one.
fn mark_entry(ended: &mut Vec<bool>, entry: &Entry)
    ensures { (n : ℕ) (past : List EntryValue) → ended.old.items ≡ ends_of n past → ended.new.items ≡ ends_of n (entry.now ∷ past) }
{
    if ends_line(&entry.what) {
        mark_ended(ended, entry.line as usize);
    }
}

impl Progress {
    /// The progress of so many actors that have done nothing, of whose lines the first so many are kept.
    pub fn new(alloc: Global, actors: usize, lines: usize) -> Result<Progress, Memory>
        ensures { IfOk result (λ progress. progress ≡ tally_of actors lines []) }
    {
        let counts = no_counts(alloc, actors)?;
        let ended = no_marks(alloc, lines)?;
        Ok(Progress { counts, ended })
    }

    /// How many actors there are.
    pub fn actors(&self) -> usize
        ensures { result ≡ length self.now.counts }
    {
        self.counts.len()
    }

    /// The count at the place of an actor.
    fn count_at(&self, actor: u16) -> Count
        requires { actor < length self.now.counts }
        ensures { slice_get self.now.counts actor ≡ Some result }
    {
        self.counts[actor as usize]
    }

    /// The mark at the place of a line.
    fn mark_at(&self, line: u32) -> bool
        requires { line < length self.now.ended }
        ensures { slice_get self.now.ended line ≡ Some result }
    {
        self.ended[line as usize]
    }

    /// The count of an actor.
    pub fn count(&self, actor: u16) -> Count
        requires { actor < length self.now.counts }
        ensures kept { slice_get self.now.counts actor ≡ Some result }
        ensures history { (actors lines : ℕ) (history : List EntryValue) → self.now ≡ tally_of actors lines history → result ≡ count_of actor history }
    {
        let count = self.count_at(actor);
        count
    }

    /// Whether a line has ended, where it is one of the first.
    pub fn has_ended(&self, line: u32) -> Option<bool>
        ensures first { IsSome result ↔ (line < length self.now.ended) }
        ensures ended { (actors lines : ℕ) (history : List EntryValue) → self.now ≡ tally_of actors lines history → IfSome result (λ ended. ended ≡ has_ended line history) }
    {
        if (line as usize) < self.ended.len() {
            let ended = self.mark_at(line);
            return Some(ended);
        }
        None
    }

    /// Counts an entry of one of the actors, whose counts are below 2^32 - 1.
    pub fn add(&mut self, entry: &Entry)
        requires actor { entry.now.actor < length self.old.counts }
        requires ended { (count : CountValue) → slice_get self.old.counts entry.now.actor ≡ Some count → count.ended < 2 ^ 32 - 1 }
        requires pins { (count : CountValue) → slice_get self.old.counts entry.now.actor ≡ Some count → count.pins < 2 ^ 32 - 1 }
        ensures counts { (actors : ℕ) (history : List EntryValue) → self.old.counts ≡ counts_of actors history → self.new.counts ≡ counts_of actors (entry.now ∷ history) }
        ensures ended { (lines : ℕ) (history : List EntryValue) → self.old.ended ≡ ends_of lines history → self.new.ended ≡ ends_of lines (entry.now ∷ history) }
    {
        count_entry(&mut self.counts, entry);
        mark_entry(&mut self.ended, entry);
    }
}
