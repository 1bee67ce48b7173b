//! The lanes of a Book's actors, the driver's apart.
ghost use Rattle.std.specs.Prelude.{◌≡◌, ◌≢◌, ◌∷◌, []};
ghost use Rattle.report_replay.specs.xds_book.BookViews.{LaneView};

use report_replay::{Job, Lane};
use xc_base::List;

/// The lanes of a Book's actors, the driver's apart.
#[derive(Drop)]
pub(crate) struct SplitLanes<J: Job> {
    pub(crate) driver: Lane<J>,
    pub(crate) callers: List<Lane<J>>,
}

/// Takes the first lane, which is the driver's, from the others.
pub(crate) fn split_lanes<J: Job>(mut lanes: Vec<Lane<J>>) -> SplitLanes<J>
    requires some { lanes.items ≢ [] }
    ensures lanes { result.driver ∷ result.callers ≡ lanes.items }
{
    let driver = lanes.remove(0);
    SplitLanes {
        driver,
        callers: List::from_vec(lanes),
    }
}
