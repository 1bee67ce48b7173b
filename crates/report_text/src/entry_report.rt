//! The text of an entry.
ghost use Rattle.std.specs.Prelude.{◌≡◌, ◌++◌, OnOk, option_copied, string_bytes};
ghost use Rattle.report_text.specs.EntryText.{entry_line, entry_lines, more_lines, pattern_lines, reply_lines, request_lines, what_line};

use call_journal::{DriverReply, Entry, Sent, What};
use cluster_tree::Snapshot;
use report_parts::callers::push_caller_line;
use report_parts::driver::push_driver_line;
use report_parts::request_report::{push_pattern_line, push_request_line};
use report_parts::snapshot_report::push_snapshot_lines;
use std::fmt::Write;
use xc_base::{Memory, Text};
use xds_bootstrap::Bootstrap;

/// Adds the line of an entry, behind its numbers.
fn push_what(
    out: &mut String,
    boot: &Bootstrap,
    snapshot: Option<&Snapshot>,
    cluster: Option<&Text>,
    actor: u16,
    what: &What,
) -> Result<(), Memory>
    ensures { OnOk result (string_bytes out.new ≡ string_bytes out.old ++ what_line boot.now.authorities (option_copied snapshot.entry) (option_copied cluster.entry) actor what.now) }
{
    match what {
        What::Driver { event, reply } => push_driver_line(out, boot, event, reply.get()),
        What::Caller { event, reply } => {
            push_caller_line(out, snapshot, cluster, actor, event, reply)
        }
    }
}

/// Adds the line of an entry, with its number and the number of its line in the session.
#[tactic(auto, unfolding(crate::specs::EntryText::entry_line))]
fn push_entry_line(
    out: &mut String,
    boot: &Bootstrap,
    snapshot: Option<&Snapshot>,
    cluster: Option<&Text>,
    number: u32,
    entry: &Entry,
) -> Result<(), Memory>
    ensures { OnOk result (string_bytes out.new ≡ string_bytes out.old ++ entry_line boot.now.authorities (option_copied snapshot.entry) (option_copied cluster.entry) number entry.now) }
{
    let line = entry.line;
    write!(out, "{number} {line} ")?;
    push_what(out, boot, snapshot, cluster, entry.actor, &entry.what)
}

/// Adds the lines of patterns that were refused.
#[tactic(auto, unfolding(crate::specs::EntryText::pattern_lines))]
fn push_patterns(out: &mut String, patterns: &[Text]) -> Result<(), Memory>
    ensures { OnOk result (string_bytes out.new ≡ string_bytes out.old ++ pattern_lines patterns.now) }
{
    for pattern in patterns {
        push_pattern_line(out, pattern)?;
    }
    Ok(())
}

/// Adds the lines of requests.
#[tactic(auto, unfolding(crate::specs::EntryText::request_lines))]
fn push_requests(out: &mut String, boot: &Bootstrap, sent: &[Sent]) -> Result<(), Memory>
    ensures { OnOk result (string_bytes out.new ≡ string_bytes out.old ++ request_lines boot.now.authorities sent.now) }
{
    for sent in sent {
        push_request_line(out, boot, sent)?;
    }
    Ok(())
}

/// Adds what a driver's entry has behind its own line.
#[tactic(auto, unfolding(crate::specs::EntryText::reply_lines))]
fn push_reply(
    out: &mut String,
    boot: &Bootstrap,
    snapshot: Option<&Snapshot>,
    reply: &DriverReply,
) -> Result<(), Memory>
    ensures { OnOk result (string_bytes out.new ≡ string_bytes out.old ++ reply_lines boot.now.authorities (option_copied snapshot.entry) reply.now) }
{
    push_patterns(out, reply.refused.as_slice())?;
    push_requests(out, boot, reply.sent.as_slice())?;
    push_snapshot_lines(out, snapshot)
}

/// Adds what an entry has behind its own line; a caller's entry has nothing.
fn push_more(
    out: &mut String,
    boot: &Bootstrap,
    snapshot: Option<&Snapshot>,
    what: &What,
) -> Result<(), Memory>
    ensures { OnOk result (string_bytes out.new ≡ string_bytes out.old ++ more_lines boot.now.authorities (option_copied snapshot.entry) what.now) }
{
    match what {
        What::Driver { reply, .. } => push_reply(out, boot, snapshot, reply.get()),
        What::Caller { .. } => Ok(()),
    }
}

/// Adds the lines of an entry of this number: its own, and under it refused patterns, requests and the snapshot
/// that it published. The snapshot that is given is the one that the entry names, and the cluster, for a
/// pick, the one that the call held before the entry.
#[tactic(auto, unfolding(crate::specs::EntryText::entry_lines))]
pub fn push_entry(
    out: &mut String,
    boot: &Bootstrap,
    snapshot: Option<&Snapshot>,
    cluster: Option<&Text>,
    number: u32,
    entry: &Entry,
) -> Result<(), Memory>
    ensures { OnOk result (string_bytes out.new ≡ string_bytes out.old ++ entry_lines boot.now.authorities (option_copied snapshot.entry) (option_copied cluster.entry) number entry.now) }
{
    push_entry_line(out, boot, snapshot, cluster, number, entry)?;
    push_more(out, boot, snapshot, &entry.what)
}
