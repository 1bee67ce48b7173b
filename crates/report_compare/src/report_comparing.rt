//! A report is compared with what was played of its session.
ghost use Rattle.std.specs.Prelude.{◌≡◌, ◌≤◌, ◌<◌, ◌-◌, ◌↔◌, length, take, IfOk, IfSome, IsTrue, None, Ok, Some, string_bytes};
ghost use Rattle.snapshot_store.specs.Tickets.{values_of};
ghost use Rattle.text_law.specs.xds_history.Pages.{pages};
ghost use Rattle.text_law.specs.xds_history.References.{snapshots_of};
ghost use Rattle.text_law.specs.xds_history.Setting.{setting_of};
ghost use Rattle.text_law.specs.legal_history.Legal.{Legal};
ghost use Rattle.book_progress.specs.ProgressKept.{most_entries};
ghost use Rattle.report_text.specs.ReportLines.{end_line};
ghost use Rattle.front_law.specs.report_writer.JournalReport.{entries_report, journal_report};
ghost use Rattle.text_law.specs.TextLaw.{text_of};
ghost use Rattle.front_law.specs.FrontLaw.{IsFrontOf};
ghost use Rattle.session_lines.specs.Lines.{lines_of};
ghost use Rattle.report_compare.specs.FirstLines.{first_lines};
ghost use Rattle.report_compare.specs.LegalReports.{IsReportOf};

use crate::mistakes::Mistake;
use crate::text_differences::{differs, stops};
use call_journal::Journal;
use cluster_tree::Snapshot;
use front_law::{one_report, write_report};
use report_text::push_end_line;
use session_lines::Session;
use snapshot_store::History;
use std::alloc::{AllocError, Global};
use xc_base::{BytesSink, Memory, Sink};

/// Whether a text is this one, byte for byte.
fn is_same(one: &[u8], other: &[u8]) -> bool
    ensures { IsTrue result ↔ (one.now ≡ other.now) }
{
    one == other
}

/// What was played of a session: the journal, and the snapshots that were published.
#[derive(Clone, Copy)]
pub struct PlayedPart<'a> {
    pub session: &'a Session,
    pub journal: &'a Journal,
    pub history: &'a History<Snapshot>,
}

/// Writes the report of what was played.
fn played_text(alloc: Global, part: PlayedPart<'_>) -> Result<BytesSink, Memory>
    requires few { length part.history.now.tickets ≤ most_entries }
    ensures text { IfOk result (λ text. ⟦<BytesSink as Sink>⟧.held text ≡ Some (journal_report part.entry.session.now.boot.authorities (values_of part.entry.history.now.tickets) part.entry.journal.now.entries)) }
{
    let mut text = BytesSink::new(alloc, Vec::new(alloc));
    match write_report(
        alloc,
        &part.session.boot,
        part.journal,
        part.history,
        &mut text,
    ) {
        Ok(()) => Ok(text),
        Err(_) => Err(AllocError),
    }
}

/// A text without its last part.
fn without_last<'a>(text: &'a [u8], last: &[u8]) -> &'a [u8]
    requires { length last.now ≤ length text.now }
    ensures { result.now ≡ take (length text.now - length last.now) text.now }
{
    text.split_at(text.len() - last.len()).0
}

/// The last line of the report of what was played.
fn last_line(alloc: Global, part: PlayedPart<'_>) -> Result<String, Memory>
    requires few { length part.history.now.tickets ≤ most_entries }
    ensures { IfOk result (λ line. string_bytes line ≡ end_line (length part.entry.journal.now.entries) (length part.entry.history.now.tickets)) }
{
    let mut line = String::new(alloc);
    push_end_line(
        &mut line,
        part.journal.len(),
        part.history.tickets.len() as u32,
    )?;
    Ok(line)
}

/// Cuts the last line off the report of what was played.
fn without_end<'a>(alloc: Global, part: PlayedPart<'_>, text: &'a [u8]) -> Result<&'a [u8], Memory>
    requires few { length part.history.now.tickets ≤ most_entries }
    requires text { text.now ≡ journal_report part.session.now.boot.authorities (values_of part.history.now.tickets) part.journal.now.entries }
    ensures { IfOk result (λ left. left.now ≡ entries_report part.entry.session.now.boot.authorities (values_of part.entry.history.now.tickets) part.entry.journal.now.entries) }
{
    let end = last_line(alloc, part)?;
    Ok(without_last(text, end.as_bytes()))
}

/// Compares a report with the text of a legal history, in which the actors act in the order of the report. None is that they
/// are the same, and only that.
pub fn compare(
    alloc: Global,
    part: PlayedPart<'_>,
    report: &[u8],
) -> Result<Option<Mistake>, Memory>
    requires legal { Legal part.session.now part.journal.now.entries }
    requires snapshots { values_of part.history.now.tickets ≡ snapshots_of (pages (setting_of part.session.now.boot part.session.now.target) part.journal.now.entries) }
    requires few { length part.history.now.tickets ≤ most_entries }
    ensures legal { result ≡ Ok None → IsReportOf part.entry.session.now report.now }
    ensures same { IfOk result (λ mistake. (mistake ≡ None) ↔ (text_of part.entry.session.now part.entry.journal.now.entries ≡ report.now)) }
    ensures line { IfOk result (λ found. IfSome found (λ mistake. 0 < mistake.line)) }
    ensures differs { IfOk result (λ found. IfSome found (λ mistake. first_lines mistake.line report.now ≡ first_lines mistake.line (text_of part.entry.session.now part.entry.journal.now.entries) → length (lines_of report.now) < mistake.line)) }
    ensures above { IfOk result (λ found. IfSome found (λ mistake. IsFrontOf (first_lines (mistake.line - 1) report.now) (text_of part.entry.session.now part.entry.journal.now.entries))) }
{
    one_report();
    let text = played_text(alloc, part)?;
    if is_same(text.bytes(), report) {
        return Ok(None);
    }
    let mistake = differs(alloc, report, text.bytes())?;
    Ok(Some(mistake))
}

/// The mistake of a report whose turns end early, where this was played: the first line that differs from the text of what was
/// played, which has no last line. Where the text ends before any line differs, the mistake says why the turns end.
pub fn compare_until(
    alloc: Global,
    part: PlayedPart<'_>,
    report: &[u8],
    mistake: Mistake,
) -> Result<Mistake, Memory>
    requires few { length part.history.now.tickets ≤ most_entries }
    ensures line { IfOk result (λ told. 0 < told.line) }
    ensures differs { IfOk result (λ told. first_lines told.line report.now ≡ first_lines told.line (entries_report part.entry.session.now.boot.authorities (values_of part.entry.history.now.tickets) part.entry.journal.now.entries) → length (lines_of report.now) < told.line) }
    ensures above { IfOk result (λ told. IsFrontOf (first_lines (told.line - 1) report.now) (entries_report part.entry.session.now.boot.authorities (values_of part.entry.history.now.tickets) part.entry.journal.now.entries)) }
{
    let text = played_text(alloc, part)?;
    let text = without_end(alloc, part, text.bytes())?;
    stops(alloc, report, text, mistake)
}
