//! The rows of clusters after a driver's entry.
ghost use Rattle.std.specs.Prelude.{◌≡◌, ◌≢◌, ◌<◌, ◌^◌, ◌∷◌, ℕ, List, Some, false, length, get_or, slice_get, option_copied, OnOk};
ghost use Rattle.xds_config.specs.Configs.{IsLawfulConfig};
ghost use Rattle.cluster_tree.specs.ViewChanges.{localities_at};
ghost use Rattle.call_journal.specs.declared.entry.Entry.{Entry as EntryValue};
ghost use Rattle.book_trees.specs.xds_history.Setting.{Setting};
ghost use Rattle.book_trees.specs.xds_history.Page.{trees_now};
ghost use Rattle.book_trees.specs.xds_history.Pages.{pages};
ghost use Rattle.book_picks.specs.CountedPlaces.{Extends};
ghost use Rattle.book_picks.specs.ClusterRows.{keys_of};
ghost use Rattle.book_picks.specs.TurnsKept.{AreTurnsAt, HasRow};
ghost use Rattle.book_picks.specs.RenewedRows.{AreMarksOf, AreRenewed, IsPublishedAt, ServesLocalities, child_seen, keys_at};

use crate::cluster_places::places_of;
use crate::cluster_rows::{Row, bare_rows, indexes_of, put_row};
use crate::kept_turns::Turns;
use cluster_tree::{NamedChild, Snapshot, Trees};
use place_marks::Marks;
use tree_text::ShownTree;
use xc_base::{Memory, Reason, Shared, Text};

/// The chosen child that is seen of a cluster.
fn chosen_child(seen: &Result<Shared<ShownTree>, Reason>) -> Option<&NamedChild>
    ensures { option_copied result ≡ child_seen seen.now }
{
    match seen {
        Ok(view) => {
            let view = view.get().view();
            view.children.as_slice().get(view.chosen as usize)
        }
        Err(_) => None,
    }
}

impl Turns {
    /// Brings the rows to the snapshot that a driver's entry publishes. A place that stays or comes back goes on with its own
    /// count. Where the clusters have the names of those from before, place by place, only the marked ones are looked at: those
    /// that may be others than stood at their places, or of which something else may be seen or served. It fails for want of
    /// memory alone, and then nothing is said of what is kept.
    pub fn renew(
        &mut self,
        trees: &Trees,
        snapshot: &Snapshot,
        marks: &Marks,
        is_renamed: bool,
    ) -> Result<(), Memory>
        requires lawful { IsLawfulConfig snapshot.now.config }
        requires views { length snapshot.now.trees ≡ length snapshot.now.config.clusters }
        requires marks { length marks.now ≡ length snapshot.now.config.clusters }
        ensures { OnOk result ((s : Setting) (past : List EntryValue) (e : EntryValue) → AreTurnsAt (pages s past) self.old → IsPublishedAt s past e snapshot.now → ServesLocalities trees.entry.now snapshot.now.config (trees_now (pages s (e ∷ past))) → (is_renamed ≡ false → AreMarksOf marks.now snapshot.now.config (pages s past) (trees_now (pages s (e ∷ past)))) → AreTurnsAt (pages s (e ∷ past)) self.new) }
    {
        if is_renamed {
            self.renew_all(trees, snapshot)?;
            return Ok(());
        }
        self.renew_rows(trees, snapshot, marks)?;
        Ok(())
    }

    /// Makes the rows of all clusters anew, and their places.
    fn renew_all(&mut self, trees: &Trees, snapshot: &Snapshot) -> Result<(), Memory>
        requires lawful { IsLawfulConfig snapshot.now.config }
        requires views { length snapshot.now.trees ≡ length snapshot.now.config.clusters }
        ensures { OnOk result ((s : Setting) (past : List EntryValue) (e : EntryValue) → AreTurnsAt (pages s past) self.old → IsPublishedAt s past e snapshot.now → ServesLocalities trees.entry.now snapshot.now.config (trees_now (pages s (e ∷ past))) → AreTurnsAt (pages s (e ∷ past)) self.new) }
    {
        let clusters = snapshot.config.get().clusters.as_blocks();
        let count = clusters.len();
        self.places = places_of(self.alloc, clusters)?;
        self.rows = bare_rows(self.alloc, count)?;
        let marks = Marks::all(self.alloc, count)?;
        self.renew_rows(trees, snapshot, &marks)?;
        Ok(())
    }

    /// Makes the rows of the clusters that are marked anew, and leaves the others. It looks at no place that isn't marked.
    fn renew_rows(
        &mut self,
        trees: &Trees,
        snapshot: &Snapshot,
        marks: &Marks,
    ) -> Result<(), Memory>
        requires lawful { IsLawfulConfig snapshot.now.config }
        requires views { length snapshot.now.trees ≡ length snapshot.now.config.clusters }
        requires marks { length marks.now ≡ length snapshot.now.config.clusters }
        ensures { OnOk result (AreRenewed trees.entry.now snapshot.now marks.now self.old self.new) }
    {
        let entries = snapshot.config.get().clusters.as_blocks();
        for place in marks.places() {
            let name = &entries.at(*place as usize).get().name;
            self.renew_row(trees, *place, name, snapshot.trees.at(*place as usize))?;
        }
        Ok(())
    }

    /// Makes the row of a cluster anew.
    fn renew_row(
        &mut self,
        trees: &Trees,
        place: u32,
        cluster: &Text,
        seen: &Result<Shared<ShownTree>, Reason>,
    ) -> Result<(), Memory>
        ensures row { OnOk result (place < length self.old.rows.items → HasRow self.new place (keys_of cluster.now (child_seen seen.now) (localities_at trees.entry.now place))) }
        ensures others { OnOk result ((other : ℕ) → other ≢ place → slice_get self.new.rows.items other ≡ slice_get self.old.rows.items other) }
        ensures many { OnOk result (length self.new.rows.items ≡ length self.old.rows.items) }
        ensures places { OnOk result (self.new.places ≡ self.old.places) }
        ensures extends { OnOk result (Extends self.old.counts self.new.counts) }
    {
        let localities = trees.localities(place)?;
        let child = chosen_child(seen);
        let indexes = indexes_of(self.alloc, &mut self.counts, cluster, child, &localities)?;
        put_row(&mut self.rows, place, Row { indexes });
        Ok(())
    }
}
