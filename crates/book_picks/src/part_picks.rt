//! A pick in the view of a cluster.
ghost use Rattle.std.specs.Prelude.{◌≡◌, ◌%◌, ℕ, List, length, slice_get, option_copied, Ok, IfSome};
ghost use Rattle.weighted_lb.specs.Pick.{HasEndpoints, HaveEndpoints, IsPickable};
ghost use Rattle.book_trees.specs.config_assembly.Orders.{Name};
ghost use Rattle.book_trees.specs.xds_history.declared.page.Page.{Page as PageValue};
ghost use Rattle.book_trees.specs.xds_history.Picks.{fail_of, part_at, view_reply};
ghost use Rattle.book_picks.specs.CountedPlaces.{IsRaised, count_at};
ghost use Rattle.book_picks.specs.TakenTurns.{IsOfChild, TurnsFor, index_taken};

use crate::cluster_rows::Row;
use crate::place_counts::PlaceCounts;
use call_journal::CallerReply;
use cluster_tree::TreeView;
use weighted_lb::{Chosen, Part, PickBody, choose, endpoint};
use xc_base::Reason;

/// Why a picker fails.
fn fail_of(body: &PickBody) -> Reason
    ensures { result ≡ fail_of body.now }
{
    match body {
        PickBody::Fail(reason) => *reason,
        _ => Reason::Failing,
    }
}

/// The READY locality at a place of a picker.
fn part_at(body: &PickBody, place: u32) -> Option<&Part>
    requires { HaveEndpoints body.now }
    ensures part { option_copied result ≡ part_at body.now place }
    ensures endpoints { IfSome (option_copied result) HasEndpoints }
{
    match body {
        PickBody::Ready { parts, .. } => parts.as_slice().get(place as usize),
        _ => None,
    }
}

/// Takes the endpoint of a part whose turn it is, in the child at a place.
fn take_turn(
    counts: &mut PlaceCounts,
    row: &Row,
    number: u32,
    child: u32,
    part: &Part,
) -> CallerReply
    requires { HasEndpoints part.now }
    ensures reply { result ≡ CallerReply.Endpoint number child part.now.locality (count_at counts.old (slice_get row.now.indexes part.now.locality) % length part.now.ready) }
    ensures counts { IsRaised counts.old counts.new (slice_get row.now.indexes part.now.locality) }
{
    let index = row.indexes.as_slice().get(part.locality as usize).copied();
    let turn = counts.count(index);
    counts.raise(index);
    CallerReply::Endpoint {
        snapshot: number,
        child,
        locality: part.locality,
        place: endpoint(part, turn),
    }
}

/// A pick of a word in a view of a cluster, of the snapshot of this number. It takes no memory.
pub fn pick_in(
    counts: &mut PlaceCounts,
    row: &Row,
    number: u32,
    view: &TreeView,
    word: u64,
) -> CallerReply
    requires { IsPickable view.now.picker }
    ensures reply { (ps : List PageValue) (cluster : Name) → TurnsFor ps cluster view.now.chosen row.now counts.old → result ≡ view_reply ps cluster number word (Ok view.now) }
    ensures child { IsOfChild view.now.chosen result }
    ensures counts { IsRaised counts.old counts.new (index_taken row.now result) }
{
    let body = &view.picker.body;
    match choose(&view.picker, word) {
        Chosen::Drop(rule) => CallerReply::Drop {
            snapshot: number,
            rule,
        },
        Chosen::Queue => CallerReply::Queue { snapshot: number },
        Chosen::Fail => CallerReply::Fail {
            snapshot: number,
            reason: fail_of(body),
        },
        Chosen::Part(place) => match part_at(body, place) {
            Some(part) => take_turn(counts, row, number, view.chosen, part),
            None => CallerReply::Queue { snapshot: number },
        },
    }
}
