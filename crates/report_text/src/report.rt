//! The first and the last line of a report.
ghost use Rattle.std.specs.Prelude.{◌≡◌, ◌++◌, OnOk, string_bytes};
ghost use Rattle.report_text.specs.ReportLines.{end_line, head_line};

use std::fmt::Write;
use xc_base::Memory;

/// The first line of a report.
#[tactic(auto, unfolding(crate::specs::ReportLines::head_line))]
pub fn head_line() -> &'static str
    ensures { result.now ≡ head_line }
{
    "xds-report 1\n"
}

/// Adds the last line of a report with so many entries, by which so many snapshots were published.
#[tactic(auto, unfolding(crate::specs::ReportLines::end_line))]
pub fn push_end_line(out: &mut String, entries: u32, snapshots: u32) -> Result<(), Memory>
    ensures { OnOk result (string_bytes out.new ≡ string_bytes out.old ++ end_line entries snapshots) }
{
    write!(out, "end {entries} {snapshots}\n")
}
