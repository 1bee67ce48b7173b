//! The list of entries.
ghost use Rattle.std.specs.Prelude.{◌≡◌, ◌<◌, ◌≤◌, ◌-◌, ◌∷◌, [], length, OnOk, OnErr, IfOk, IfErr, IsOk, Some, slice_get, reverse};

use crate::entry::Entry;
use std::alloc::{AllocError, Global};
use std::marker::Model;
use xc_base::Memory;

/// The most entries that the journal of a channel has.
pub const MOST_ENTRIES: u32 = 1_048_576;

/// The entries of a journal. Contracts see them with the newest first, and how many more the journal takes without
/// memory.
#[derive(Drop)]
pub struct Journal {
    entries: Vec<Entry>,
    room: u32,
}

impl Model for Journal {
    ghost use Rattle.std.specs.Prelude.{◌≤◌, ◌<◌, ◌-◌, ◌^◌, length, reverse, vec_capacity};
    ghost use Rattle.call_journal.specs.JournalViews.{JournalView};

    ghost Value = { JournalView };

    ghost view = { λ j. record { entries = reverse j.entries.items; spare = j.room - length j.entries.items } };

    ghost invariant = { λ j. (j.room ≤ vec_capacity j.entries) × (length j.entries.items < 2 ^ 32) };
}

impl Journal {
    /// An empty journal with room for so many entries. It fails for want of memory alone.
    pub fn new(alloc: Global, room: u32) -> Result<Journal, Memory>
        ensures { IfOk result (λ j. j ≡ record { entries = []; spare = room }) }
    {
        let entries = Vec::with_capacity(alloc, room as usize)?;
        Ok(Journal { entries, room })
    }

    /// How many more entries it takes without memory.
    pub fn spare(&self) -> u32
        ensures { result ≡ self.now.spare }
    {
        self.room.saturating_sub(self.entries.len() as u32)
    }

    /// Makes room for so many more entries. There may be more room afterwards than before, and nothing else changes. It
    /// fails for want of memory, or where there would be more than 2^32 - 1 entries.
    pub fn reserve(&mut self, more: u16) -> Result<(), Memory>
        ensures room { OnOk result (more ≤ self.new.spare) }
        ensures entries { self.new.entries ≡ self.old.entries }
        ensures kept { self.old.spare ≤ self.new.spare }
    {
        if self.entries.len() + more as usize > u32::MAX as usize {
            return Err(AllocError);
        }
        self.entries.reserve(more as usize)?;
        self.room = self.room.max(self.entries.len() as u32 + u32::from(more));
        Ok(())
    }

    /// Adds an entry. It comes back for want of memory, or where there are 2^32 - 1 entries; neither can be while some
    /// room is spare.
    pub fn push(&mut self, e: Entry) -> Result<(), Entry>
        ensures ok { OnOk result (self.new ≡ record { entries = e ∷ self.old.entries; spare = self.old.spare - 1 }) }
        ensures err { OnErr result (self.new ≡ self.old) }
        ensures back { IfErr result (λ x. x ≡ e) }
        ensures room { 0 < self.old.spare → IsOk result }
    {
        if self.entries.len() >= u32::MAX as usize {
            return Err(e);
        }
        match self.entries.push(e) {
            Ok(()) => Ok(()),
            Err(failed) => Err(failed.value),
        }
    }

    /// How many entries it has.
    pub fn len(&self) -> u32
        ensures { result ≡ length self.now.entries }
    {
        self.entries.len() as u32
    }

    /// The entry at a place, from 0, the oldest first.
    pub fn at(&self, i: u32) -> &Entry
        requires { i < length self.now.entries }
        ensures { slice_get (reverse self.now.entries) i ≡ Some result.now }
    {
        &self.entries[i as usize]
    }
}
