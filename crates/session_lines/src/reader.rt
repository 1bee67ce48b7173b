//! The reader of lines from line 5 on.
ghost use Rattle.std.specs.Prelude.{◌≡◌, ◌+◌, ◌≤◌, ◌∷◌, [], false, length, max, nat_le, reverse, IfOk};
ghost use Rattle.session_lines.specs.Before.{data_len, data_lens, entries, is_of_other, is_started, latest};
ghost use Rattle.session_lines.specs.KeptSession.{Fits, IsOfNoOther};
ghost use Rattle.session_lines.specs.Works.{GivesLine, bytes, caller_of, call_of, commit, endpoint, gate_of, is_too_many, line_of, line_with, lost, moment, opened, pick, start, word_of, work_of};
ghost use Rattle.session_lines.specs.Session.{Gives, with_line};
ghost use Rattle.session_lines.specs.SessionViews.{form_in, words_in};
ghost use Rattle.xds_bootstrap.specs.Authorities.{AreAuthorities};
ghost use Rattle.xds_name.specs.NameTexts.{seen};

use crate::call_uses::{CallUse, use_of, with_work};
use crate::cause::{Cause, LineFault, SessionFault};
use crate::fields::fields_in;
use crate::forms::{Form, StartWords, form_of};
use crate::line_texts::text;
use crate::lines::is_driver_line;
use crate::session::{Act, DriverLine, Line, Work};
use crate::session_head::Head;
use crate::word_values::{
    address_in, authority_in, bytes_in, is_number, number_up_to, number_within, path_in, state_in,
};
use crate::words::Words;
use std::alloc::Global;
use std::marker::Model;
use xc_base::{Call, CallId, Memory, Shared, Text, Time};
use xds_bootstrap::Bootstrap;

/// The number of the first line that does something.
const FIRST: u32 = 5;

const MOST_LINES: u32 = 200_000;

const MOST_DRIVER_LINES: u32 = 20_000;

const MOST_DATA: usize = 8_388_608;

const MOST_TIME: u64 = 1_000_000_000_000;

const MOST_CALL: u64 = 65_535;

/// The lines read so far, and what is counted of them.
#[derive(Drop)]
pub struct Reader {
    alloc: Global,
    lines: Vec<Line>,
    driver_lines: u32,
    bytes: usize,
    entries: usize,
    time: u64,
    uses: Vec<CallUse>,
}

// Contracts see the lines, the newest first.
impl Model for Reader {
    ghost use Rattle.std.specs.Prelude.{List, reverse};
    ghost use Rattle.session_lines.specs.declared.session.Line.{Line};
    ghost use Rattle.session_lines.specs.KeptSession.{IsKept};

    ghost Value = { List Line };

    ghost view = { λ r. reverse r.lines.items };

    ghost invariant = { λ r. IsKept (reverse r.lines.items) r.driver_lines r.bytes r.entries r.time r.uses.items };
}

impl Reader {
    /// No lines.
    pub fn new(alloc: Global) -> Reader
        ensures { result ≡ [] }
    {
        Reader {
            alloc,
            lines: Vec::new(alloc),
            driver_lines: 0,
            bytes: 0,
            entries: 0,
            time: 0,
            uses: Vec::new(alloc),
        }
    }

    /// The number of the next line.
    pub fn next_number(&self) -> u32
        ensures { result ≡ length self.now + 5 }
    {
        self.lines.len() as u32 + FIRST
    }

    /// At most how many entries the lines make, without the last sweep.
    pub fn entries(&self) -> usize
        ensures { result ≡ entries self.now }
    {
        self.entries
    }

    /// The lines, in their order.
    pub fn into_lines(self) -> Vec<Line>
        ensures { result.items ≡ reverse self }
    {
        self.lines
    }

    /// Whether there are too many lines with this one, or too many of the driver.
    fn is_too_many(&self, line: &[u8]) -> bool
        ensures { result ≡ is_too_many self.now (length self.now + 5) line.now }
    {
        self.next_number() > MOST_LINES
            || self.driver_lines >= MOST_DRIVER_LINES && is_driver_line(line)
    }

    /// Whether the data isn't too much with so many bytes more.
    fn fits(&self, bytes: usize) -> bool
        ensures { result ≡ nat_le (data_lens self.now + bytes) 8388608 }
    {
        bytes <= MOST_DATA - self.bytes
    }

    /// Whether the time isn't less than an earlier one.
    fn is_late(&self, time: u64) -> bool
        ensures { result ≡ nat_le (latest self.now) time }
    {
        self.time <= time
    }

    /// Whether another caller has named the call.
    fn is_of_other(&self, caller: u16, id: u32) -> bool
        ensures { result ≡ is_of_other caller id self.now }
    {
        match use_of(&self.uses, id).caller {
            Some(other) => other != caller,
            None => false,
        }
    }

    /// Whether an earlier line starts the call.
    fn is_started(&self, id: u32) -> bool
        ensures { result ≡ is_started id self.now }
    {
        use_of(&self.uses, id).started
    }

    /// A line that opens the stream of an authority.
    fn opened(&self, boot: &Bootstrap, word: &str) -> Result<Work, LineFault>
        requires lawful { AreAuthorities boot.now.authorities }
        ensures work { GivesLine (λ work. work) result (opened boot.now word.now) }
        ensures fits { IfOk result (λ x. Fits x self.now) }
    {
        let authority = authority_in(boot, word).ok_or(Cause::Authority)?;
        Ok(Work::Driver(DriverLine::Opened(authority)))
    }

    /// A line that loses the stream of an authority.
    fn lost(&self, boot: &Bootstrap, word: &str) -> Result<Work, LineFault>
        requires lawful { AreAuthorities boot.now.authorities }
        ensures work { GivesLine (λ work. work) result (lost boot.now word.now) }
        ensures fits { IfOk result (λ x. Fits x self.now) }
    {
        let authority = authority_in(boot, word).ok_or(Cause::Authority)?;
        Ok(Work::Driver(DriverLine::Lost(authority)))
    }

    /// A line with data on the stream of an authority.
    fn bytes(&self, boot: &Bootstrap, word: &str, digits: &str) -> Result<Work, LineFault>
        requires lawful { AreAuthorities boot.now.authorities }
        ensures work { GivesLine (λ work. work) result (bytes boot.now self.now word.now digits.now) }
        ensures fits { IfOk result (λ x. Fits x self.now) }
    {
        let authority = authority_in(boot, word).ok_or(Cause::Authority)?;
        let bytes = bytes_in(self.alloc, digits)?;
        if !self.fits(bytes.len()) {
            return Err(LineFault::Because(Cause::Bytes));
        }
        Ok(Work::Driver(DriverLine::Bytes { authority, bytes }))
    }

    /// A line with the time.
    fn moment(&self, word: &str) -> Result<Work, LineFault>
        ensures work { GivesLine (λ work. work) result (moment self.now word.now) }
        ensures fits { IfOk result (λ x. Fits x self.now) }
    {
        let time = number_up_to(MOST_TIME, word).ok_or(Cause::Number)?;
        if !self.is_late(time) {
            return Err(LineFault::Because(Cause::Time));
        }
        Ok(Work::Driver(DriverLine::Moment(Time(time))))
    }

    /// A line that reports an endpoint's state.
    fn endpoint(&self, address: &str, state: &str) -> Result<Work, LineFault>
        ensures work { GivesLine (λ work. work) result (endpoint address.now state.now) }
        ensures fits { IfOk result (λ x. Fits x self.now) }
    {
        let address = address_in(self.alloc, address)?;
        let state = state_in(state).ok_or(Cause::State)?;
        let address = Shared::new(self.alloc, address)?;
        Ok(Work::Driver(DriverLine::Endpoint { address, state }))
    }

    /// The caller, where no other one has named the call.
    fn caller_of(&self, callers: u16, id: u32, word: &str) -> Result<u16, LineFault>
        ensures caller { GivesLine (λ caller. caller) result (caller_of callers self.now id word.now) }
        ensures call { IfOk result (λ caller. is_of_other caller id self.now ≡ false) }
    {
        let caller = number_within(1, u64::from(callers), word).ok_or(Cause::Caller)?;
        let caller = caller as u16;
        if self.is_of_other(caller, id) {
            return Err(LineFault::Because(Cause::Call));
        }
        Ok(caller)
    }

    /// A line that starts a call.
    fn start(&self, callers: u16, parts: &StartWords<'_>) -> Result<Work, LineFault>
        ensures work { GivesLine (λ work. work) result (start callers self.now parts.now.caller.now parts.now.call.now parts.now.word.now parts.now.path.now (words_in parts.now.fields)) }
        ensures fits { IfOk result (λ x. Fits x self.now) }
    {
        let id = call_of(parts.caller, parts.call)?;
        let word = word_of(parts.word)?;
        let caller = self.caller_of(callers, id, parts.caller)?;
        if self.is_started(id) {
            return Err(LineFault::Because(Cause::Call));
        }
        let path = path_in(parts.path).ok_or(Cause::Path)?;
        let headers = fields_in(self.alloc, parts.fields)?;
        let call = Call {
            id: CallId(id),
            path: Text::from_str(self.alloc, path)?,
            headers,
            word,
        };
        let call = Shared::new(self.alloc, call)?;
        Ok(Work::Caller {
            caller,
            act: Act::Start(call),
        })
    }

    /// A line in which a call picks.
    fn pick(&self, callers: u16, caller: &str, call: &str, word: &str) -> Result<Work, LineFault>
        ensures work { GivesLine (λ work. work) result (pick callers self.now caller.now call.now word.now) }
        ensures fits { IfOk result (λ x. Fits x self.now) }
    {
        let id = call_of(caller, call)?;
        let word = word_of(word)?;
        let caller = self.caller_of(callers, id, caller)?;
        let call = CallId(id);
        Ok(Work::Caller {
            caller,
            act: Act::Pick { call, word },
        })
    }

    /// A line that commits a call.
    fn commit(&self, callers: u16, caller: &str, call: &str) -> Result<Work, LineFault>
        ensures work { GivesLine (λ work. work) result (commit callers self.now caller.now call.now) }
        ensures fits { IfOk result (λ x. Fits x self.now) }
    {
        let id = call_of(caller, call)?;
        let caller = self.caller_of(callers, id, caller)?;
        Ok(Work::Caller {
            caller,
            act: Act::Commit(CallId(id)),
        })
    }

    /// What a line of a form says.
    #[tactic(auto, unfolding(crate::specs::Works::work_of))]
    fn work(&self, head: &Head, form: Form<'_>) -> Result<Work, LineFault>
        requires lawful { AreAuthorities head.now.boot.authorities }
        ensures work { GivesLine (λ work. work) result (work_of head.now.boot head.now.callers self.now (form_in form.entry)) }
        ensures fits { IfOk result (λ x. Fits x self.now) }
    {
        match form {
            Form::Opened(authority) => self.opened(&head.boot, authority),
            Form::Bytes { authority, digits } => self.bytes(&head.boot, authority, digits),
            Form::Lost(authority) => self.lost(&head.boot, authority),
            Form::Moment(time) => self.moment(time),
            Form::Endpoint { address, state } => self.endpoint(address, state),
            Form::Sweep => Ok(Work::Driver(DriverLine::Sweep)),
            Form::Start(words) => self.start(head.callers, &words),
            Form::Pick { caller, call, word } => self.pick(head.callers, caller, call, word),
            Form::Commit { caller, call } => self.commit(head.callers, caller, call),
        }
    }

    /// The next line, of these words.
    #[tactic(auto, unfolding(crate::specs::Works::line_with))]
    fn line_with(
        &self,
        head: &Head,
        gate: Option<&str>,
        words: Words<'_>,
    ) -> Result<Line, LineFault>
        requires lawful { AreAuthorities head.now.boot.authorities }
        ensures line { GivesLine (λ x. x) result (line_with head.now.boot head.now.callers self.now (length self.now + 5) (seen gate.entry, words_in words.entry)) }
        ensures fits { IfOk result (λ x. Fits x.work self.now) }
    {
        let number = self.next_number();
        let form = form_of(words).ok_or(Cause::Word)?;
        let gate = gate_of(number, gate)?;
        let work = self.work(head, form)?;
        Ok(Line { number, gate, work })
    }

    /// What the next line says.
    #[tactic(auto, unfolding(crate::specs::Works::line_of))]
    fn line(&self, head: &Head, line: &[u8]) -> Result<Line, LineFault>
        requires lawful { AreAuthorities head.now.boot.authorities }
        ensures line { GivesLine (λ x. x) result (line_of head.now.boot head.now.callers self.now (length self.now + 5) line.now) }
        ensures fits { IfOk result (λ x. Fits x.work self.now) }
        ensures few { IfOk result (λ x. length self.now ≤ 199995) }
    {
        if self.is_too_many(line) {
            return Err(LineFault::Because(Cause::Lines));
        }
        let text = text(line).ok_or(Cause::Text)?;
        let (gate, words) = Words::of(text).split_gate();
        self.line_with(head, gate, words)
    }

    /// One more line.
    fn with_line(self, line: Line) -> Result<Reader, Memory>
        requires few { length self ≤ 199995 }
        requires bytes { data_lens self + data_len line.work ≤ 8388608 }
        requires call { IsOfNoOther line.work self }
        ensures { IfOk result (λ reader. reader ≡ line ∷ self) }
    {
        let uses = with_work(self.uses, &line.work)?;
        let driver_lines = line.work.driver_lines() + self.driver_lines;
        let bytes = line.work.data_len() + self.bytes;
        let entries = line.work.entries() + self.entries;
        let time = later(line.work.time(), self.time);
        let mut lines = self.lines;
        lines.push(line)?;
        Ok(Reader {
            alloc: self.alloc,
            lines,
            driver_lines,
            bytes,
            entries,
            time,
            uses,
        })
    }
}

/// Takes the next line. Its fault has its number.
pub fn take_line(reader: Reader, head: &Head, line: &[u8]) -> Result<Reader, SessionFault>
    requires lawful { AreAuthorities head.now.boot.authorities }
    ensures { Gives (λ after. after) result (with_line head.now reader (length reader + 5) line.now) }
{
    let number = reader.next_number();
    match reader.line(head, line) {
        Ok(line) => Ok(reader.with_line(line)?),
        Err(fault) => Err(fault.at(number)),
    }
}

/// The later of two times.
fn later(one: u64, other: u64) -> u64
    ensures { result ≡ max one other }
{
    one.max(other)
}

/// The number of a call, where the caller is written as a number too.
fn call_of(caller: &str, call: &str) -> Result<u32, LineFault>
    ensures { GivesLine (λ id. id) result (call_of caller.now call.now) }
{
    if !is_number(caller) {
        return Err(LineFault::Because(Cause::Number));
    }
    let id = number_up_to(MOST_CALL, call).ok_or(Cause::Number)?;
    Ok(id as u32)
}

/// The word of a call or of a pick.
fn word_of(word: &str) -> Result<u64, LineFault>
    ensures { GivesLine (λ word. word) result (word_of word.now) }
{
    Ok(number_up_to(u64::MAX, word).ok_or(Cause::Number)?)
}

/// The number that a gate names: that of an earlier line.
#[tactic(auto, unfolding(crate::specs::Works::gate_of))]
fn gate_of(number: u32, gate: Option<&str>) -> Result<Option<u32>, LineFault>
    requires { 5 ≤ number }
    ensures { GivesLine (λ gate. gate) result (gate_of number (seen gate.entry)) }
{
    let Some(word) = gate else {
        return Ok(None);
    };
    match number_within(u64::from(FIRST), u64::from(number - 1), word) {
        Some(gate) => Ok(Some(gate as u32)),
        None => Err(LineFault::Because(Cause::Gate)),
    }
}
