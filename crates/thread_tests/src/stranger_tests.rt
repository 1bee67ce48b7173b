//! A lane that is of another channel.
ghost use Rattle.std.specs.Prelude.{◌≡◌, ◌<◌, Some};
ghost use Rattle.threaded_player.specs.session_player.Stages.{IsOfSession};

use call_journal::{Count, ListedEvent, Plan};
use channel_calls::{ChanFault, Channel, First, next_listed};
use cluster_tree::Snapshot;
use header_match::RegexPatterns;
use session_input::session_in;
use session_lines::Session;
use session_plan::plan_session;
use snapshot_store::Archive;
use std::alloc::Global;
use std::marker::Brand;
use std::sync::Wait;
use std::sync::ledger::{Blank, Ledger};
use std::test::Fail;
use threaded_player::{begin_channel, shared_event};
use xc_base::{Memory, Shared, Steps};
use xds_book::{Job, Lane};

/// The driver opens a stream in line 5, and nothing comes in line 6.
const SESSION: &[u8] = b"\
xds-session 1\n\
boot {\"xds_servers\":[{\"server_uri\":\"ms:1\"}],\"node\":{\"id\":\"n\"}}\n\
target xds:///svc\n\
callers 1\n\
d open -\n\
d sweep\n";

/// What both channels are of.
#[derive(Drop)]
struct Setup<'a> {
    alloc: Global,
    session: &'a Session,
    plan: &'a Plan,
    archive: Shared<Archive<Snapshot>>,
}

/// What the driver's lane is played with.
#[derive(Drop)]
struct Hand<L: Ledger> {
    patterns: RegexPatterns,
    steps: Steps<L>,
}

/// Plays what is listed next for the driver's lane. None where there is nothing.
fn drive_next<J: Job, L: Ledger, R: Wait + Sync>(
    rt: &R,
    channel: &Channel<J>,
    plan: &Plan,
    lane: &mut Lane<J>,
    hand: &mut Hand<L>,
) -> Option<Result<(), ChanFault>>
    requires planned { J.plan ≡ Some plan.now.actors }
    requires driver { lane.old.actor ≡ 0 }
    ensures driver { lane.new.actor ≡ 0 }
{
    let listed = next_listed(plan, lane)?;
    let ListedEvent::Driver(event) = &listed.event else {
        return None;
    };
    let event = shared_event(event).ok()?;
    let Hand { patterns, steps } = hand;
    Some(channel.drive(rt, lane, listed.line, listed.after, event, patterns, steps))
}

/// Whether a channel answers a lane that played line 5 on another one as a stranger, and then that it has ended by that.
fn knows_stranger<J: Job, L: Ledger, R: Wait + Sync>(
    rt: &R,
    blank: Blank,
    setup: Setup<'_>,
) -> Result<bool, Memory>
    requires name { blank.name ≡ L.name }
    requires parts { blank.parts ≡ L.parts }
    requires some { 0 < blank.parts }
    requires of { IsOfSession J.plan J.boot J.target setup.session.now setup.plan.now.actors }
    requires archive { setup.archive ≡ J.archive }
{
    let Setup {
        alloc,
        session,
        plan,
        archive,
    } = setup;
    let (own, _) = begin_channel::<J>(alloc, session, plan, archive.share()?)?;
    let (other, lanes) = begin_channel::<J>(alloc, session, plan, archive)?;
    let mut hand = Hand {
        patterns: RegexPatterns::new(alloc),
        steps: Steps::<L>::new(blank),
    };
    let mut lanes = lanes.into_vec();
    let mut lane = lanes.remove(0);
    let _ = drive_next(rt, &other, plan, &mut lane, &mut hand);
    let stranger = drive_next(rt, &own, plan, &mut lane, &mut hand);
    let ended = drive_next(rt, &own, plan, &mut lane, &mut hand);
    let book = Count { ended: 0, pins: 0 };
    let lane = Count { ended: 1, pins: 0 };
    Ok(
        stranger == Some(Err(ChanFault::Stranger { book, lane }))
            && ended == Some(Err(ChanFault::Ended(First::Stranger { book, lane }))),
    )
}

/// A lane that counts otherwise than the Book is a stranger there, which ends the channel.
#[test]
fn a_lane_of_another_channel_is_a_stranger(rt: HostRuntime) -> Result<(), Fail> {
    let alloc = rt.alloc();
    let session = session_in(alloc, SESSION)?;
    let plan = plan_session(alloc, &session)?;
    let archive = Shared::new(alloc, Archive::new(alloc)?)?;
    let setup = Setup {
        alloc,
        session: &session,
        plan: &plan,
        archive,
    };
    let is_known = knows_stranger::<Brand, Brand, _>(&rt, Blank::new(1), setup)?;
    assert!(rt; is_known);
    Ok(())
}
