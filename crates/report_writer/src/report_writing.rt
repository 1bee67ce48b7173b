//! The report, written to a sink.
ghost use Rattle.std.specs.Prelude.{◌≡◌, ◌≤◌, ◌<◌, ◌^◌, length, OnOk, OnErr, IsErrOf, option_copied, string_bytes};
ghost use Rattle.std.specs.Io.KnownBytes.{Appends};
ghost use Rattle.xc_base.specs.Causes.{Rose};
ghost use Rattle.xc_base.specs.Outside.{AppendsPrefix};
ghost use Rattle.snapshot_store.specs.Tickets.{values_of};
ghost use Rattle.report_text.specs.EntryText.{entry_lines};
ghost use Rattle.report_text.specs.ReportLines.{end_line};
ghost use Rattle.report_writer.specs.JournalReport.{journal_report};

use crate::call_holds::CallHolds;
use crate::named_snapshots::named_in;
use call_journal::{Entry, Journal};
use cluster_tree::Snapshot;
use line_output::{OutFault, write_lines};
use report_text::{head_line, push_end_line, push_entry};
use snapshot_store::History;
use std::alloc::Global;
use xc_base::{Memory, Sink, Text};
use xds_bootstrap::Bootstrap;

/// Makes a text the lines of an entry. Its memory is used again.
fn set_entry(
    text: &mut String,
    boot: &Bootstrap,
    snapshot: Option<&Snapshot>,
    cluster: Option<&Text>,
    number: u32,
    entry: &Entry,
) -> Result<(), Memory>
    ensures { OnOk result (string_bytes text.new ≡ entry_lines boot.now.authorities (option_copied snapshot.entry) (option_copied cluster.entry) number entry.now) }
{
    text.clear();
    push_entry(text, boot, snapshot, cluster, number, entry)
}

/// Makes a text the last line of a report. Its memory is used again.
fn set_end_line(text: &mut String, entries: u32, snapshots: u32) -> Result<(), Memory>
    ensures { OnOk result (string_bytes text.new ≡ end_line entries snapshots) }
{
    text.clear();
    push_end_line(text, entries, snapshots)
}

/// Writes the report of a journal and of the snapshots that it published, in one pass and one line at a time; the texts of
/// all entries are made in one place. The bootstrap
/// is the one whose authorities the entries name. After a fault a prefix of the report is written. `WriteFault` comes only
/// where the sink's count of faults rose, and `Memory` where an entry's text or what calls hold had no room.
pub fn write_report<K: Sink>(
    alloc: Global,
    boot: &Bootstrap,
    journal: &Journal,
    history: &History<Snapshot>,
    sink: &mut K,
) -> Result<(), OutFault>
    requires few { length history.now.tickets < 2 ^ 32 }
    ensures ok { OnOk result (Appends (K.held sink.old) (K.held sink.new) (journal_report boot.now.authorities (values_of history.now.tickets) journal.now.entries)) }
    ensures prefix { OnErr result (AppendsPrefix (K.held sink.old) (K.held sink.new) (journal_report boot.now.authorities (values_of history.now.tickets) journal.now.entries)) }
    ensures later { K.faults sink.old ≤ K.faults sink.new }
    ensures cause { IsErrOf result OutFault.WriteFault → Rose (K.faults sink.old) (K.faults sink.new) }
{
    write_lines(sink, head_line())?;
    let mut holds = CallHolds::new(alloc);
    let mut text = String::new(alloc);
    for i in 0..journal.len() {
        let entry = journal.at(i);
        let snapshot = named_in(history, &entry.what);
        let cluster = holds.picked_in(&entry.what);
        set_entry(&mut text, boot, snapshot, cluster, i + 1, entry)?;
        write_lines(sink, text.as_str())?;
        holds.follow(snapshot, &entry.what)?;
    }
    set_end_line(&mut text, journal.len(), history.tickets.len() as u32)?;
    write_lines(sink, text.as_str())?;
    Ok(())
}
