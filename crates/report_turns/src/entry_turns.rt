//! The first lines of entries, read one after another.
ghost use Rattle.std.specs.Prelude.{◌≡◌, ◌≤◌, ◌∷◌, [], length, slice_get, IfNone, IfSome, MatchOption, Some, drop, option_map};
ghost use Rattle.xc_base.specs.Numbers.{number_of};
ghost use Rattle.session_lines.specs.Lines.{lines_of, words_of};
ghost use Rattle.report_turns.specs.TurnLines.{HasBehind, actor_in, caller_actor, finding_at, goes_on, is_last, line_in, next_of, place_in, seen, turn_in, turn_place};

use line_output::find_byte;
use session_lines::lines::next_line;
use std::marker::Model;
use std::str;
use xc_base::read_number;

/// What the first line of an entry says: whose turn it is, and for which line of the session; and what stands behind it.
#[derive(Clone, Copy)]
pub struct EntryTurn<'a> {
    /// The actor: the driver is 0, and callers are 1 and more.
    pub actor: u16,
    /// The line of the session; 0 is that of the last sweep.
    pub line: u32,
    /// The report behind this line.
    pub more: &'a [u8],
}

impl EntryTurn<'_> {
    /// The member of the turn's actor in a table that has one for each actor, the driver's first; None where the table has no
    /// such member.
    pub fn find_in<'t, T>(self, table: &'t [T]) -> Option<&'t T>
        ensures member { IfSome result (λ member. slice_get table.now self.entry.actor ≡ Some member.now) }
        ensures none { IfNone result (length table.now ≤ self.entry.actor) }
    {
        table.get(usize::from(self.actor))
    }
}

/// What is found next in a report.
#[derive(Clone, Copy)]
pub enum Found<'a> {
    /// An entry.
    Entry(EntryTurn<'a>),
    /// A line that belongs to no entry and isn't the last one of a report.
    Strange,
    /// The last line of a report, or the end of the text.
    End,
}

/// Reads the entries of a report one after another. Contracts see it as the lines that are left.
#[derive(Drop)]
pub struct EntryTurns<'a> {
    rest: &'a [u8],
    number: u32,
}

impl<'a> Model for EntryTurns<'a> {
    ghost use Rattle.std.specs.Prelude.{List, ℕ};
    ghost use Rattle.session_lines.specs.Lines.{lines_of};

    ghost Value = { List (List ℕ) };

    ghost view = { λ turns. lines_of turns.rest.now };
}

/// The first word, and what stands behind its space; None where there is no space.
#[tactic(auto, using(crate::proofs::TurnLemmas::word_cut, crate::proofs::TurnLemmas::word_last))]
fn cut_word(line: &[u8]) -> Option<(&[u8], &[u8])>
    ensures { MatchOption result (words_of line.now ≡ line.now ∷ []) (λ p. words_of line.now ≡ p.0.now ∷ words_of p.1.now) }
{
    match find_byte(b' ', line) {
        Some(at) => Some((line.split_at(at).0, line.split_at(at + 1).1)),
        None => None,
    }
}

/// The number that a word is.
#[tactic(auto, using(crate::proofs::TurnLemmas::number_is_text))]
fn number_in(word: &[u8]) -> Option<u64>
    ensures { result ≡ number_of word.now }
{
    match str::from_utf8(word) {
        Ok(text) => read_number(text),
        Err(_) => None,
    }
}

/// The line of the session that a word is.
#[tactic(auto, unfolding(crate::specs::TurnLines::line_in))]
fn read_line(word: &[u8]) -> Option<u32>
    ensures { result ≡ line_in word.now }
{
    u32::try_from(number_in(word)?).ok()
}

/// The caller of this number.
fn caller_of(number: u64) -> Option<u16>
    ensures { result ≡ caller_actor number }
{
    let caller = u16::try_from(number).ok()?;
    if caller == 0 { None } else { Some(caller) }
}

/// The actor of a word: `d`, or `c` with the caller's number.
#[tactic(auto, unfolding(crate::specs::TurnLines::actor_in))]
fn read_actor(word: &[u8]) -> Option<u16>
    ensures { result ≡ actor_in word.now }
{
    if word == b"d".as_slice() {
        return Some(0);
    }
    caller_of(number_in(word.strip_prefix(b"c")?)?)
}

/// The turn that these words for the line and the actor say.
#[tactic(auto, unfolding(crate::specs::TurnLines::place_in))]
fn read_place<'a>(line: &[u8], actor: &[u8], more: &'a [u8]) -> Option<EntryTurn<'a>>
    ensures place { option_map turn_place result ≡ place_in line.now actor.now }
    ensures more { IfSome result (λ turn. turn.more.now ≡ more.now) }
{
    let line = read_line(line)?;
    let actor = read_actor(actor)?;
    Some(EntryTurn { actor, line, more })
}

/// The entry whose first line this is: its number, its line of the session, its actor, and what happens, parted by spaces.
#[tactic(auto, using(crate::proofs::TurnLemmas::one_word, crate::proofs::TurnLemmas::two_words, crate::proofs::TurnLemmas::three_words, crate::proofs::TurnLemmas::four_words))]
fn read_turn<'a>(line: &[u8], more: &'a [u8]) -> Option<EntryTurn<'a>>
    ensures place { option_map turn_place result ≡ turn_in line.now }
    ensures more { IfSome result (λ turn. turn.more.now ≡ more.now) }
{
    let (_number, line) = cut_word(line)?;
    let (number, line) = cut_word(line)?;
    let (actor, _what) = cut_word(line)?;
    read_place(number, actor, more)
}

/// Whether a line belongs to the entry above it.
fn goes_on(line: &[u8]) -> bool
    ensures { result ≡ goes_on line.now }
{
    line.starts_with(b"  ")
}

/// Whether a line is the last one of a report.
fn is_last(line: &[u8]) -> bool
    ensures { result ≡ is_last line.now }
{
    line.starts_with(b"end ")
}

/// What a line is that belongs to no entry above it.
#[tactic(auto, unfolding(crate::specs::TurnLines::finding_at))]
fn found_at<'a>(line: &[u8], more: &'a [u8]) -> Found<'a>
    ensures found { seen result ≡ finding_at line.now }
    ensures behind { HasBehind (lines_of more.now) result }
{
    if is_last(line) {
        return Found::End;
    }
    match read_turn(line, more) {
        Some(turn) => Found::Entry(turn),
        None => Found::Strange,
    }
}

impl<'a> EntryTurns<'a> {
    /// The entries behind the first line of a report.
    pub fn new(report: &'a [u8]) -> EntryTurns<'a>
        ensures { result ≡ drop 1 (lines_of report.now) }
    {
        let mut turns = EntryTurns {
            rest: report,
            number: 0,
        };
        let _head = turns.next_line();
        turns
    }

    /// The number of the report's line that was found last.
    pub fn number(&self) -> u32 {
        self.number
    }

    /// The next line, if there is one.
    #[tactic(auto, using(crate::proofs::TurnLemmas::no_lines))]
    fn next_line(&mut self) -> Option<&'a [u8]>
        ensures none { IfNone result (self.old ≡ []) }
        ensures last { IfNone result (self.new ≡ []) }
        ensures some { IfSome result (λ line. self.old ≡ line.now ∷ self.new) }
    {
        self.number = self.number.saturating_add(1);
        let (line, rest) = next_line(self.rest)?;
        self.rest = rest;
        Some(line)
    }

    /// Finds the next entry: what is found is what the lines say that are left, and those behind it are left.
    pub fn find(&mut self) -> Found<'a>
        ensures found { seen result ≡ (next_of self.old).finding }
        ensures left { self.new ≡ (next_of self.old).behind }
        ensures behind { HasBehind self.new result }
    {
        while let Some(line) = self.next_line() {
            if !goes_on(line) {
                return found_at(line, self.rest);
            }
        }
        Found::End
    }
}
