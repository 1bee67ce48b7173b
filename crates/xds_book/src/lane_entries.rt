//! Entries of the actors of lanes.
ghost use Rattle.std.specs.Prelude.{◌≡◌, ◌<◌, ◌-◌, ◌∷◌, length, slice_get, Some};
ghost use Rattle.book_progress.specs.ActorCounts.{count_after};
ghost use Rattle.book_progress.specs.ProgressKept.{counts_of, most_entries};
ghost use Rattle.xds_book.specs.BookEntries.{entry_of};

use crate::jobs::Job;
use crate::lanes::Lane;
use book_progress::CountedJournal;
use call_journal::{Entry, What};

/// Adds an entry of the lane's actor, where there is room, and counts it in the lane.
pub(crate) fn add_entry<J: Job>(
    journal: &mut CountedJournal,
    lane: &mut Lane<J>,
    line: u32,
    what: What,
)
    requires counted { slice_get journal.old.counts lane.old.actor ≡ Some lane.old.count }
    requires counts { journal.old.counts ≡ counts_of (length journal.old.counts) journal.old.entries }
    requires room { 0 < journal.old.spare }
    requires few { length journal.old.entries < most_entries }
    ensures entries { journal.new.entries ≡ entry_of lane.old.actor line what ∷ journal.old.entries }
    ensures counts { journal.new.counts ≡ counts_of (length journal.old.counts) journal.new.entries }
    ensures spare { journal.new.spare ≡ journal.old.spare - 1 }
    ensures lane { lane.new ≡ record { actor = lane.old.actor; count = count_after what lane.old.count; refused = lane.old.refused } }
    ensures counted { slice_get journal.new.counts lane.old.actor ≡ Some lane.new.count }
{
    let actor = lane.actor;
    journal.add(Entry { actor, line, what });
    let count = journal.count(actor);
    lane.count = count;
}
