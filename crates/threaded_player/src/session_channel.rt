//! The channel of a session.
ghost use Rattle.std.specs.Prelude.{◌≡◌, ◌+◌, IfOk, map};
ghost use Rattle.std.specs.List.{range_with_len};
ghost use Rattle.closed_book.specs.xds_book.BookEntries.{first_lane};
ghost use Rattle.closed_book.specs.session_player.Stages.{IsOfSession};

use call_journal::Plan;
use channel_crossing::Channel;
use closed_book::{Job, Lane};
use cluster_tree::Snapshot;
use session_lines::Session;
use session_script::room;
use snapshot_store::Archive;
use std::alloc::Global;
use xc_base::{List, Memory, Shared};

/// A channel on which a session can be played by its plan, with a lane for the driver and for each caller. It fails for want
/// of memory alone.
pub fn begin_channel<J: Job>(
    alloc: Global,
    session: &Session,
    plan: &Plan,
    archive: Shared<Archive<Snapshot>>,
) -> Result<(Channel<J>, List<Lane<J>>), Memory>
    requires of { IsOfSession J.plan J.boot J.target session.now plan.now.actors }
    requires archive { archive ≡ J.archive }
    ensures lanes { IfOk result (λ begun. begun.1 ≡ map first_lane (range_with_len 0 (session.now.callers + 1))) }
{
    let _plan = plan;
    let boot = session.boot.clone()?;
    let target = session.target.clone()?;
    let room = room(session);
    let begun = Channel::begin(alloc, boot, target, session.callers, room, archive)?;
    Ok(begun)
}
