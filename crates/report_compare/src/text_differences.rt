//! The first line in which two texts differ.
ghost use Rattle.std.specs.Prelude.{◌≡◌, ◌≢◌, ◌<◌, ◌-◌, ◌++◌, ◌↔◌, [], length, IfOk, IsTrue};
ghost use Rattle.front_law.specs.FrontLaw.{IsFrontOf};
ghost use Rattle.session_lines.specs.Lines.{lines_of};
ghost use Rattle.report_compare.specs.FirstLines.{first_lines};

use crate::mistakes::{Difference, Mistake, Why};
use line_output::find_byte;
use std::alloc::Global;
use xc_base::{Memory, Text};

/// The first line of a text, with its line feed, and what stands behind it. The last line may lack it; nothing is no line.
#[tactic(auto, using(crate::proofs::LineFronts::line_at, crate::proofs::LineFronts::line_last, crate::proofs::LineFronts::no_line))]
fn first_line(text: &[u8]) -> (&[u8], &[u8])
    ensures whole { result.0.now ++ result.1.now ≡ text.now }
    ensures line { result.0.now ≡ first_lines 1 text.now }
    ensures none { (result.0.now ≡ []) ↔ (text.now ≡ []) }
{
    match find_byte(b'\n', text) {
        Some(at) => text.split_at(at + 1),
        None => (text, b""),
    }
}

/// A line without its line feed.
fn without_feed(line: &[u8]) -> &[u8] {
    line.strip_suffix(b"\n").unwrap_or(line)
}

/// A line as text, in which marks stand for bytes that are none. Nothing is no line.
fn line_text(alloc: Global, line: &[u8]) -> Result<Option<Text>, Memory> {
    if line.is_empty() {
        return Ok(None);
    }
    let text = String::from_utf8_lossy(alloc, without_feed(line))?;
    let text = Text::from_string(alloc, text)?;
    Ok(Some(text))
}

/// How far a report is that of what was played.
#[derive(Clone, Copy)]
pub(crate) struct Parting<'a> {
    /// The number of the first line that differs, or with which one of the texts goes on alone.
    pub(crate) line: usize,
    /// The report's line, with its line feed; nothing where there is none.
    pub(crate) found: &'a [u8],
    /// The line of what was played.
    pub(crate) legal: &'a [u8],
}

impl Parting<'_> {
    /// Whether the report's line lacks its line feed alone.
    fn lacks_feed(&self) -> bool {
        !self.found.is_empty() && self.found == without_feed(self.legal)
    }

    /// What is wrong with the report's line.
    fn why(&self, alloc: Global) -> Result<Why, Memory> {
        if self.lacks_feed() {
            return Ok(Why::NoLineFeed);
        }
        Ok(Why::Text(Difference {
            found: line_text(alloc, self.found)?,
            legal: line_text(alloc, self.legal)?,
        }))
    }

    /// The mistake of the report's line.
    fn mistake(&self, alloc: Global) -> Result<Mistake, Memory>
        ensures { IfOk result (λ mistake. mistake.line ≡ self.now.line) }
    {
        let why = self.why(alloc)?;
        Ok(Mistake {
            line: self.line,
            why,
        })
    }
}

/// Whether two lines are there and are the same.
fn are_same(line: &[u8], other: &[u8]) -> bool
    ensures { IsTrue result ↔ (line.now ≢ []) × (line.now ≡ other.now) }
{
    !line.is_empty() && line == other
}

/// Where a report and a text part. What stands above that line begins the text.
fn find_parting<'a>(report: &'a [u8], text: &'a [u8]) -> Parting<'a>
    ensures line { 0 < result.line }
    ensures above { IsFrontOf (first_lines (result.line - 1) report.now) text.now }
    ensures differs { first_lines result.line report.now ≡ first_lines result.line text.now → length (lines_of report.now) < result.line }
{
    let mut report_left = report;
    let mut text_left = text;
    for above in 0..usize::MAX {
        let (found, report_after) = first_line(report_left);
        let (legal, text_after) = first_line(text_left);
        if !are_same(found, legal) {
            return Parting {
                line: above + 1,
                found,
                legal,
            };
        }
        report_left = report_after;
        text_left = text_after;
    }
    unreachable!()
}

/// The mistake of a report that isn't this text of a legal history.
pub(crate) fn differs(alloc: Global, report: &[u8], text: &[u8]) -> Result<Mistake, Memory>
    ensures line { IfOk result (λ mistake. 0 < mistake.line) }
    ensures above { IfOk result (λ mistake. IsFrontOf (first_lines (mistake.line - 1) report.now) text.now) }
    ensures differs { IfOk result (λ mistake. first_lines mistake.line report.now ≡ first_lines mistake.line text.now → length (lines_of report.now) < mistake.line) }
{
    find_parting(report, text).mistake(alloc)
}

/// The mistake of a report whose turns end by a mistake. It is told in the first line that differs from what was played, whose
/// text has no last line: where nothing more was played, it is told why the turns end there.
pub(crate) fn stops(
    alloc: Global,
    report: &[u8],
    text: &[u8],
    mistake: Mistake,
) -> Result<Mistake, Memory>
    ensures line { IfOk result (λ told. 0 < told.line) }
    ensures above { IfOk result (λ told. IsFrontOf (first_lines (told.line - 1) report.now) text.now) }
    ensures differs { IfOk result (λ told. first_lines told.line report.now ≡ first_lines told.line text.now → length (lines_of report.now) < told.line) }
{
    let parting = find_parting(report, text);
    if parting.legal.is_empty() && parting.line >= mistake.line {
        return Ok(Mistake {
            line: parting.line,
            why: mistake.why,
        });
    }
    parting.mistake(alloc)
}
