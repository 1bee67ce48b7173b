//! The numbers of snapshots.
ghost use Rattle.std.specs.Prelude.{◌≡◌, ◌<◌, ◌+◌, ◌^◌, Some, List, IfSome};
ghost use Rattle.call_journal.specs.declared.entry.Entry.{Entry};
ghost use Rattle.cluster_tree.specs.ViewChanges.{IsChangeMark};
ghost use Rattle.xds_history.specs.declared.page.Page.{Page};
ghost use Rattle.xds_history.specs.Page.{latest as latest_snapshot, latest_number};
ghost use Rattle.xds_history.specs.Right.{IsNumber, Shown};
ghost use Rattle.book_trees.specs.ReportedLaws.{ShowsWhatStands, any_differs, next_number, stands_now};

use place_marks::Marks;

/// Whether the configuration or a view differs from before.
pub fn differs(config: bool, changed: &Marks) -> bool
    ensures { result ≡ any_differs config changed.now }
{
    config || !changed.are_none()
}

/// The number of the snapshot that is due where something stands, by the number of the latest one and whether what stands
/// differs from what stood before.
#[tactic(auto, using(crate::proofs::DueNumberLemmas::first_due, crate::proofs::DueNumberLemmas::next_due, crate::proofs::DueNumberLemmas::none_due))]
pub fn due_number(latest: Option<u32>, differs: bool) -> Option<u32>
    requires few { IfSome latest (λ n. n + 1 < 2 ^ 32) }
    ensures number { result ≡ next_number latest differs }
    ensures due { (past : List Entry) (ps : List Page) (stands : Shown) → ShowsWhatStands past ps → latest ≡ latest_number ps → IsChangeMark differs (stands_now past ps) stands → IsNumber (Some stands) (latest_snapshot ps) result }
{
    match latest {
        None => Some(1),
        Some(number) if differs => Some(number + 1),
        Some(_) => None,
    }
}
