//! The snapshots that entries name.
ghost use Rattle.std.specs.Prelude.{◌≡◌, option_copied};
ghost use Rattle.std.specs.List.{slice_get};
ghost use Rattle.snapshot_store.specs.Tickets.{values_of};
ghost use Rattle.report_writer.specs.JournalReport.{named_in, number_in, number_in_reply, numbered};

use call_journal::{CallerReply, What};
use cluster_tree::Snapshot;
use snapshot_store::History;

/// The number of the snapshot that a caller's reply names.
fn number_in_reply(reply: &CallerReply) -> Option<u32>
    ensures { result ≡ number_in_reply reply.now }
{
    match reply {
        CallerReply::Pinned(snapshot)
        | CallerReply::Routed { snapshot, .. }
        | CallerReply::Endpoint { snapshot, .. }
        | CallerReply::Queue { snapshot }
        | CallerReply::Fail { snapshot, .. }
        | CallerReply::Drop { snapshot, .. } => Some(*snapshot),
        CallerReply::NoSnapshot | CallerReply::NotHeld | CallerReply::Released => None,
    }
}

/// The number of the snapshot that an entry names: of the one that it published, or of the one in its reply.
fn number_in(what: &What) -> Option<u32>
    ensures { result ≡ number_in what.now }
{
    match what {
        What::Driver { reply, .. } => reply.get().snapshot,
        What::Caller { reply, .. } => number_in_reply(reply),
    }
}

/// The snapshot at a place, from 0.
fn snapshot_at(history: &History<Snapshot>, place: u32) -> Option<&Snapshot>
    ensures { option_copied result ≡ slice_get (values_of history.now.tickets) place }
{
    if (place as usize) < history.tickets.len() {
        Some(history.at(place))
    } else {
        None
    }
}

/// The snapshot of a number, from 1.
fn snapshot_numbered(history: &History<Snapshot>, number: u32) -> Option<&Snapshot>
    ensures { option_copied result ≡ numbered (values_of history.now.tickets) number }
{
    if number == 0 {
        None
    } else {
        snapshot_at(history, number - 1)
    }
}

/// The snapshot that an entry names: the one that it published, or the one in its reply.
pub fn named_in<'a>(history: &'a History<Snapshot>, what: &What) -> Option<&'a Snapshot>
    ensures { option_copied result ≡ named_in (values_of history.now.tickets) what.now }
{
    let number = number_in(what)?;
    snapshot_numbered(history, number)
}
