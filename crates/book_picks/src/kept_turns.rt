//! What is kept of picks.
ghost use Rattle.std.specs.Prelude.{◌≡◌, ◌<◌, ◌^◌, ◌∷◌, [], List, Some, length, slice_get, option_copied, option_map, map, IfSome, OnOk};
ghost use Rattle.xc_base.specs.declared.names.CallId.{CallId as CallValue};
ghost use Rattle.cluster_tree.specs.ViewChanges.{ArePickable};
ghost use Rattle.call_journal.specs.declared.event.CallerEvent.{CallerEvent};
ghost use Rattle.call_journal.specs.declared.entry.What.{What};
ghost use Rattle.call_journal.specs.declared.entry.Entry.{Entry as EntryValue};
ghost use Rattle.book_trees.specs.xds_history.Setting.{Setting};
ghost use Rattle.book_trees.specs.xds_history.declared.page.Page.{Page as PageValue};
ghost use Rattle.book_trees.specs.xds_history.Pages.{pages};
ghost use Rattle.book_trees.specs.xds_history.Picks.{held_reply, pick_reply};
ghost use Rattle.book_picks.specs.TakenTurns.{IsShownAt, TakesTurn};
ghost use Rattle.book_picks.specs.TurnsKept.{AreTurnsAt, IsPickAt};

use crate::cluster_rows::Row;
use crate::part_picks::pick_in;
use crate::place_counts::PlaceCounts;
use call_journal::CallerReply;
use cluster_tree::Snapshot;
use std::alloc::Global;
use std::collections::BTreeMap;
use tree_text::ShownTree;
use xc_base::{Reason, Shared, Text};

/// How many picks took an endpoint in each place where endpoints take turns, and where the counts of each cluster of the
/// configuration stand.
#[derive(Drop)]
pub struct Turns {
    pub alloc: Global,
    pub counts: PlaceCounts,
    /// The place of each cluster of the configuration, from 0, by its name.
    pub places: BTreeMap<Text, u32>,
    /// Where the counts of each cluster stand, by its place.
    pub rows: Vec<Row>,
}

/// The row of the cluster at a place.
fn row_at(rows: &Vec<Row>, place: u32) -> Option<&Row>
    ensures { option_copied result ≡ slice_get rows.now.items place }
{
    rows.get(place as usize)
}

/// What is seen of the cluster at a place.
fn view_at(snapshot: &Snapshot, place: u32) -> Option<&Result<Shared<ShownTree>, Reason>>
    ensures { option_copied result ≡ slice_get snapshot.now.trees place }
{
    snapshot.trees.get(place as usize)
}

impl Turns {
    /// Nothing was picked. It takes no memory.
    pub fn new(alloc: Global) -> Turns
        ensures { AreTurnsAt [] result }
    {
        Turns {
            alloc,
            counts: PlaceCounts::new(alloc),
            places: BTreeMap::new(alloc),
            rows: Vec::new(alloc),
        }
    }

    /// A pick of a word by a call that holds this cluster, or none, in the latest snapshot, or none (gRPC's drop policy,
    /// weighted_target and round_robin). It takes no memory, and no longer in a larger configuration but for the look-up
    /// of the cluster's name.
    pub fn pick(
        &mut self,
        cluster: Option<&Text>,
        snapshot: Option<&Snapshot>,
        word: u64,
    ) -> CallerReply
        requires { IfSome (option_copied snapshot) (λ x. ArePickable x.trees) }
        ensures reply { (ps : List PageValue) (id : CallValue) → AreTurnsAt ps self.old → IsPickAt ps id (option_copied cluster.entry) (option_copied snapshot.entry) → result ≡ pick_reply ps id word }
        ensures kept { (s : Setting) (past : List EntryValue) (e : EntryValue) (id : CallValue) → AreTurnsAt (pages s past) self.old → IsPickAt (pages s past) id (option_copied cluster.entry) (option_copied snapshot.entry) → length past < 2 ^ 63 → e.what ≡ What.Caller (CallerEvent.Pick id word) result → AreTurnsAt (pages s (e ∷ past)) self.new }
    {
        let Some(cluster) = cluster else {
            return CallerReply::NotHeld;
        };
        let Some(snapshot) = snapshot else {
            return CallerReply::NotHeld;
        };
        self.pick_held(cluster, snapshot, word)
    }

    /// The same of a call that holds a cluster, where there is a snapshot.
    fn pick_held(&mut self, cluster: &Text, snapshot: &Snapshot, word: u64) -> CallerReply
        requires { ArePickable snapshot.now.trees }
        ensures reply { (ps : List PageValue) → AreTurnsAt ps self.old → IsShownAt ps snapshot.now → result ≡ held_reply ps word (Some cluster.now) (Some snapshot.now) }
        ensures takes { (ps : List PageValue) → AreTurnsAt ps self.old → IsShownAt ps snapshot.now → TakesTurn ps cluster.now result self.old self.new }
    {
        let Some(place) = self.places.get(cluster) else {
            return CallerReply::NotHeld;
        };
        let Some(row) = row_at(&self.rows, *place) else {
            return CallerReply::NotHeld;
        };
        let Some(view) = view_at(snapshot, *place) else {
            return CallerReply::NotHeld;
        };
        match view {
            Ok(view) => {
                let view = view.get().view();
                pick_in(&mut self.counts, row, snapshot.number, view, word)
            }
            Err(reason) => CallerReply::Fail {
                snapshot: snapshot.number,
                reason: *reason,
            },
        }
    }
}
