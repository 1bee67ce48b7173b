//! Whether all that is listed was played.
ghost use Rattle.std.specs.Prelude.{◌≡◌, ◌<◌, ◌≤◌, ◌^◌, ◌↔◌, length, All, IsTrue, Some, slice_get};
ghost use Rattle.lane_checks.specs.EndedPlans.{HaveEndedTo, all_ended};
ghost use Rattle.xds_book.specs.BookEntries.{IsLaneOf};
ghost use Rattle.xds_book.specs.xds_history.Responses.{refused_texts};

use call_journal::{Listed, Plan};
use xc_base::List;
use xds_book::{Book, Job, Lane};

/// Whether all these lanes are of the Book.
fn are_of<J: Job>(book: &Book<J>, lanes: &[Lane<J>]) -> bool
    ensures { IsTrue result ↔ All (λ lane. IsLaneOf lane book.now) lanes.now }
{
    for lane in lanes {
        if !book.is_of(lane) {
            return false;
        }
    }
    true
}

/// Whether an actor has ended all events of its list, and no pin is up.
fn has_ended<J: Job>(book: &Book<J>, actor: u16, list: &List<Listed>) -> bool
    requires { actor < length book.now.counts }
    ensures { IsTrue result ↔ (slice_get book.now.counts actor ≡ Some (all_ended list.now)) }
{
    let count = book.count(actor);
    count.ended as usize == list.len() && count.pins == 0
}

/// Whether each actor has ended all events of its list.
fn have_ended<J: Job>(book: &Book<J>, plan: &Plan) -> bool
    requires { length plan.now.actors ≡ length book.now.counts }
    ensures ended { IsTrue result → HaveEndedTo (length plan.now.actors) plan.now.actors book.now.counts }
    ensures all { length plan.now.actors ≤ 2 ^ 16 → HaveEndedTo (length plan.now.actors) plan.now.actors book.now.counts → IsTrue result }
{
    for place in 0..plan.actors.len() {
        let Ok(actor) = u16::try_from(place) else {
            return false;
        };
        if !has_ended(book, actor, plan.actors.at(place)) {
            return false;
        }
    }
    true
}

/// Whether each lane is of the Book, the driver's refused texts are those of the journal, and all that is listed in the plan,
/// which J names, was played. It takes no memory.
pub fn have_played_all<J: Job>(
    book: &Book<J>,
    plan: &Plan,
    driver: &Lane<J>,
    callers: &[Lane<J>],
) -> bool
    requires planned { J.plan ≡ Some plan.now.actors }
    ensures refused { IsTrue result → driver.now.refused ≡ refused_texts book.now.entries }
    ensures driver { IsTrue result → IsLaneOf driver.now book.now }
    ensures callers { IsTrue result → All (λ lane. IsLaneOf lane book.now) callers.now }
    ensures ended { IsTrue result → HaveEndedTo (length plan.now.actors) plan.now.actors book.now.counts }
    ensures all { length plan.now.actors ≤ 2 ^ 16 → driver.now.refused ≡ refused_texts book.now.entries → IsLaneOf driver.now book.now → All (λ lane. IsLaneOf lane book.now) callers.now → HaveEndedTo (length plan.now.actors) plan.now.actors book.now.counts → IsTrue result }
{
    let _actors = book.actors();
    book.is_of(driver) && book.refused_as(driver) && are_of(book, callers) && have_ended(book, plan)
}
