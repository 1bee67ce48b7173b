//! Why a report isn't legal.
use report_turns::Misplaced;
use std::fmt;
use xc_base::Text;

/// How many words at the beginning of an entry say which entry it is.
const SHARED_WORDS: u32 = 3;

/// Why no front of a legal history's text goes on with a line of a report, or why that can't be told.
#[derive(Drop)]
pub enum Why {
    /// Something else stands there in the text of the history whose actors act in the order of the report.
    Text(Difference),
    /// The entry can't stand there; it plays this line of the session.
    Misplaced { line: u32, why: Misplaced },
    /// This line of the session isn't played to its end.
    Left { line: u32 },
    /// The line belongs to no entry, and isn't the last one of a report.
    Strange,
    /// The last line has no line feed.
    NoLineFeed,
    /// The session can't be played on from here. No way is known on which this comes.
    Stuck,
}

/// What stands in a line, and what a legal report has there. None is no line.
#[derive(Drop)]
pub struct Difference {
    pub found: Option<Text>,
    pub legal: Option<Text>,
}

/// The first line of a report that can't stand there, from 1, or from which the session can't be played on; and why.
#[derive(Drop)]
pub struct Mistake {
    pub line: usize,
    pub why: Why,
}

impl Mistake {
    /// The session can't be played on from this line of the report.
    pub fn stuck(line: usize) -> Mistake {
        Mistake {
            line,
            why: Why::Stuck,
        }
    }
}

/// What stands behind the first words that two lines of entries share: number, line of the session and actor.
fn without_shared_words<'a>(one: &'a str, other: &'a str) -> (&'a str, &'a str) {
    let mut parts = (one, other);
    for _ in 0..SHARED_WORDS {
        match (parts.0.split_once(' '), parts.1.split_once(' ')) {
            (Some((a, one)), Some((b, other))) if a == b => parts = (one, other),
            _ => break,
        }
    }
    parts
}

impl fmt::Display for Difference {
    fn fmt<W: fmt::Write>(&self, f: &mut fmt::Formatter<W>) -> fmt::Result {
        match (&self.found, &self.legal) {
            (Some(found), Some(legal)) => {
                let found = found.as_str();
                let legal = legal.as_str();
                let (found, legal) = if found.starts_with(' ') {
                    (found.trim_start(), legal.trim_start())
                } else {
                    without_shared_words(found, legal)
                };
                write!(f, "{found}, a legal one has: {legal}")
            }
            (None, Some(legal)) => write!(f, "nothing, a legal one has: {legal}"),
            (Some(found), None) => write!(f, "{found}, a legal one has no such line"),
            (None, None) => write!(f, "nothing"),
        }
    }
}

/// Tells why an entry of this line of the session can't stand there; line 0 is that of the last sweep.
fn tell_misplaced<W: fmt::Write>(
    f: &mut fmt::Formatter<W>,
    line: u32,
    why: Misplaced,
) -> fmt::Result {
    match why {
        Misplaced::NoActor => write!(f, "the session has no such actor"),
        Misplaced::NotListed => write!(f, "session line {line} isn't one of this actor"),
        Misplaced::Again => write!(f, "session line {line} is played twice"),
        Misplaced::Early(before) if line == 0 => {
            write!(
                f,
                "the last sweep is made too early, before session line {before} has ended"
            )
        }
        Misplaced::Early(before) => {
            write!(
                f,
                "session line {line} is played too early, before session line {before} has ended"
            )
        }
    }
}

impl fmt::Display for Why {
    fn fmt<W: fmt::Write>(&self, f: &mut fmt::Formatter<W>) -> fmt::Result {
        match self {
            Why::Text(difference) => write!(f, "{difference}"),
            Why::Misplaced { line, why } => tell_misplaced(f, *line, *why),
            Why::Left { line } => write!(f, "session line {line} isn't played to its end"),
            Why::Strange => write!(f, "this is no line of a report"),
            Why::NoLineFeed => write!(f, "the line feed is missing"),
            Why::Stuck => write!(f, "the session can't be played on from here"),
        }
    }
}

impl fmt::Display for Mistake {
    fn fmt<W: fmt::Write>(&self, f: &mut fmt::Formatter<W>) -> fmt::Result {
        let line = self.line;
        let why = &self.why;
        write!(f, "line {line}: {why}")
    }
}
