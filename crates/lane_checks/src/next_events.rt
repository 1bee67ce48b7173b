//! What a plan lists next.
ghost use Rattle.std.specs.Prelude.{◌≡◌, IfSome, IsTrue, None, Some, option_copied};
ghost use Rattle.call_journal.specs.declared.event.DriverEvent.TheVariants.{Sweep as SweepValue};
ghost use Rattle.call_journal.specs.declared.plan.Listed.{Listed as ListedOne};
ghost use Rattle.call_journal.specs.declared.plan.ListedEvent.TheVariants as ListedValue;
ghost use Rattle.book_progress.specs.PlayedPlans.{IsListed};

use call_journal::{DriverEvent, Listed, ListedEvent, Plan};
use xds_book::{Job, Lane};

/// What the plan lists next for a lane, where no pin of it is up.
pub fn next_listed<'a, J: Job>(plan: &'a Plan, lane: &Lane<J>) -> Option<&'a Listed>
    ensures listed { IfSome result (λ listed. IsListed plan.now.actors lane.now.actor lane.now.count listed.now) }
    ensures pins { IfSome result (λ listed. lane.now.count.pins ≡ 0) }
    ensures some { (listed : ListedOne) → lane.now.count.pins ≡ 0 → IsListed plan.now.actors lane.now.actor lane.now.count listed → option_copied result ≡ Some listed }
{
    let count = lane.count();
    if count.pins != 0 {
        return None;
    }
    let list = plan.actors.as_slice().get(usize::from(lane.actor()))?;
    list.as_slice().get(count.ended as usize)
}

/// Whether a listed event is the last sweep.
pub fn is_last_sweep(listed: &Listed) -> bool
    ensures line { IsTrue result → listed.now.line ≡ 0 }
    ensures gate { IsTrue result → listed.now.after ≡ None }
    ensures event { IsTrue result → listed.now.event ≡ ListedValue.Driver SweepValue }
    ensures sweep { listed.now ≡ record { line = 0; after = None; event = ListedValue.Driver SweepValue } → IsTrue result }
{
    listed.line == 0
        && listed.after.is_none()
        && matches!(listed.event, ListedEvent::Driver(DriverEvent::Sweep))
}
