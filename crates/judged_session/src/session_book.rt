//! The Book of a session.
ghost use Rattle.std.specs.Prelude.{◌≡◌, ◌+◌, map, IfOk};
ghost use Rattle.std.specs.List.{range_with_len};
ghost use Rattle.report_replay.specs.session_player.Stages.{IsOfSession};
ghost use Rattle.report_replay.specs.xds_book.BookEntries.{first_lane};
ghost use Rattle.judged_session.specs.JudgedTurns.{IsFirst};

use call_journal::Plan;
use cluster_tree::Snapshot;
use report_replay::{Book, Job, Lane};
use session_lines::Session;
use session_script::room;
use snapshot_store::Archive;
use std::alloc::Global;
use xc_base::{List, Memory, Shared};

/// A Book in which nothing was done, on which a session can be played by its plan, with a lane for the driver and for each
/// caller. It fails for want of memory alone.
pub(crate) fn begin_book<J: Job>(
    alloc: Global,
    session: &Session,
    plan: &Plan,
    archive: Shared<Archive<Snapshot>>,
) -> Result<(Book<J>, List<Lane<J>>), Memory>
    requires of { IsOfSession J.plan J.boot J.target session.now plan.now.actors }
    requires archive { archive ≡ J.archive }
    ensures book { IfOk result (λ begun. IsFirst session.now.callers begun.0) }
    ensures lanes { IfOk result (λ begun. begun.1 ≡ map first_lane (range_with_len 0 (session.now.callers + 1))) }
{
    let _plan = plan;
    let boot = session.boot.clone()?;
    let target = session.target.clone()?;
    let room = room(session);
    Book::begin(alloc, boot, target, session.callers, room, archive)
}
