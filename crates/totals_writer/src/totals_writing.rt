//! The totals of a journal, written to a sink.
ghost use Rattle.std.specs.Prelude.{◌≡◌, ◌≤◌, ◌<◌, ◌^◌, length, IfOk, OnOk, OnErr, IsErrOf};
ghost use Rattle.std.specs.Io.KnownBytes.{Appends};
ghost use Rattle.xc_base.specs.Causes.{Rose};
ghost use Rattle.xc_base.specs.Outside.{AppendsPrefix};
ghost use Rattle.snapshot_store.specs.Tickets.{values_of};
ghost use Rattle.report_writer.specs.JournalReport.{shown_entries};
ghost use Rattle.totals_writer.specs.Totals.{journal_totals};
ghost use Rattle.totals_writer.specs.Tallying.{IsTallyOf};

use crate::tallies::Tally;
use crate::totals_lines::totals_text;
use call_journal::Journal;
use cluster_tree::Snapshot;
use line_output::{OutFault, write_lines};
use report_writer::call_holds::CallHolds;
use report_writer::named_snapshots::named_in;
use snapshot_store::History;
use std::alloc::Global;
use xc_base::{Memory, Sink};

/// What the entries of a journal are counted to, in one pass that remembers what each call holds.
fn tally_of(alloc: Global, journal: &Journal, history: &History<Snapshot>) -> Result<Tally, Memory>
    ensures { IfOk result (λ tally. IsTallyOf (shown_entries (values_of history.now.tickets) journal.now.entries) tally) }
{
    let mut holds = CallHolds::new(alloc);
    let mut tally = Tally::new(alloc);
    for i in 0..journal.len() {
        let entry = journal.at(i);
        let snapshot = named_in(history, &entry.what);
        let cluster = holds.picked_in(&entry.what);
        tally.follow(snapshot, cluster, &entry.what)?;
        holds.follow(snapshot, &entry.what)?;
    }
    Ok(tally)
}

/// Writes the totals of a session of n rounds, whose journal and published snapshots these are, in one pass and one line at
/// a time. After a fault a prefix of them is written. `WriteFault` comes only where the sink's count of faults rose, and
/// `Memory` where the counts or their text found no memory.
pub fn write_totals<K: Sink>(
    alloc: Global,
    n: u32,
    journal: &Journal,
    history: &History<Snapshot>,
    sink: &mut K,
) -> Result<(), OutFault>
    requires few { length history.now.tickets < 2 ^ 32 }
    ensures ok { OnOk result (Appends (K.held sink.old) (K.held sink.new) (journal_totals n (values_of history.now.tickets) journal.now.entries)) }
    ensures prefix { OnErr result (AppendsPrefix (K.held sink.old) (K.held sink.new) (journal_totals n (values_of history.now.tickets) journal.now.entries)) }
    ensures later { K.faults sink.old ≤ K.faults sink.new }
    ensures cause { IsErrOf result OutFault.WriteFault → Rose (K.faults sink.old) (K.faults sink.new) }
{
    let tally = tally_of(alloc, journal, history)?;
    let snapshots = history.tickets.len() as u32;
    let text = totals_text(alloc, n, journal.len(), snapshots, &tally)?;
    write_lines(sink, text.as_str())?;
    Ok(())
}
