//! Why a session isn't read.
ghost use Rattle.std.specs.Prelude.{◌≡◌, Some};
ghost use Rattle.session_lines.specs.LineCauses.{cause_word, fault_at};
ghost use Rattle.session_lines.specs.declared.cause.LineFault.TheVariants as line;
ghost use Rattle.session_lines.specs.declared.cause.SessionFault.TheVariants as session;

use std::alloc::{AllocError, AllocFailed};
use std::fmt;

/// Why bytes aren't a session, in the order in which the causes are looked for. Each prints as one word.
#[derive(Clone, Copy, Debug, PartialEq, Eq)]
pub enum Cause {
    /// More than 67,108,864 bytes, with line 0.
    Size,
    /// Line 200,001, or the 20,001st line whose first word that doesn't begin with `@` is `d`.
    Lines,
    /// A line that isn't UTF-8.
    Text,
    /// Line 1 isn't `xds-session 1`.
    Header,
    /// Line 2 isn't `boot ` and a bootstrap.
    Boot,
    /// Line 3 isn't `target ` and a target that names a listener of the bootstrap.
    Target,
    /// Line 4 isn't `callers ` and a number of 1 to 16.
    Callers,
    /// The words aren't those of one of the forms, or too few or too many.
    Word,
    /// What follows `@` isn't the number of an earlier line from line 5 on.
    Gate,
    /// The bootstrap doesn't have the authority.
    Authority,
    /// The data is odd or not hexadecimal, or empty.
    Hex,
    /// The data lines so far have more than 8,388,608 bytes.
    Bytes,
    /// A number isn't written in decimal digits without a leading zero, or is out of range.
    Number,
    /// The time is less than an earlier one.
    Time,
    /// The address isn't numeric with a port.
    Address,
    /// The state is none of `idle`, `connecting`, `ready` and `failing`.
    State,
    /// The caller is 0 or above the number of callers.
    Caller,
    /// The call was named before by another caller, or is started a second time.
    Call,
    /// The path doesn't begin with `/`.
    Path,
    /// A header field isn't a name, `=` and a value that decodes to UTF-8, or it is the 65th.
    Field,
    /// Fewer than four lines, with line 0.
    Short,
    /// More than 1,048,576 entries, with line 0.
    Entries,
}

impl Cause {
    /// The word that it prints as.
    pub fn word(self) -> &'static str
        ensures { result.now ≡ cause_word self }
    {
        match self {
            Cause::Size => "size",
            Cause::Lines => "lines",
            Cause::Text => "text",
            Cause::Header => "header",
            Cause::Boot => "boot",
            Cause::Target => "target",
            Cause::Callers => "callers",
            Cause::Word => "word",
            Cause::Gate => "gate",
            Cause::Authority => "authority",
            Cause::Hex => "hex",
            Cause::Bytes => "bytes",
            Cause::Number => "number",
            Cause::Time => "time",
            Cause::Address => "address",
            Cause::State => "state",
            Cause::Caller => "caller",
            Cause::Call => "call",
            Cause::Path => "path",
            Cause::Field => "field",
            Cause::Short => "short",
            Cause::Entries => "entries",
        }
    }
}

impl fmt::Display for Cause {
    ghost output = { λ c. Some (cause_word c) };

    fn fmt<W: fmt::Write>(&self, f: &mut fmt::Formatter<W>) -> fmt::Result {
        let word = self.word();
        write!(f, "{word}")
    }
}

/// Why a session isn't read.
#[derive(Clone, Copy, Debug, PartialEq, Eq)]
pub enum SessionFault {
    /// The bytes aren't a session: the first fault, and the number of its line.
    Script { line: u32, cause: Cause },
    /// There was no memory.
    Memory,
}

impl SessionFault {
    /// A line is refused.
    pub fn at(line: u32, cause: Cause) -> SessionFault
        ensures { result ≡ session.Script line cause }
    {
        SessionFault::Script { line, cause }
    }
}

impl From<AllocError> for SessionFault {
    ghost from_gives = { λ _ e. e ≡ session.Memory };

    fn from(_: AllocError) -> Self {
        SessionFault::Memory
    }
}

impl<T: Drop> From<AllocFailed<T>> for SessionFault {
    ghost from_gives = { λ _ e. e ≡ session.Memory };

    fn from(_: AllocFailed<T>) -> Self {
        SessionFault::Memory
    }
}

/// Why a line isn't read.
#[derive(Clone, Copy, Debug, PartialEq, Eq)]
pub enum LineFault {
    /// The line is refused.
    Because(Cause),
    /// There was no memory.
    Memory,
}

impl LineFault {
    /// The same, with the number of the line.
    pub fn at(self, line: u32) -> SessionFault
        ensures { result ≡ fault_at line self }
    {
        match self {
            LineFault::Because(cause) => SessionFault::at(line, cause),
            LineFault::Memory => SessionFault::Memory,
        }
    }
}

impl From<Cause> for LineFault {
    ghost from_gives = { λ cause e. e ≡ line.Because cause };

    fn from(cause: Cause) -> Self {
        LineFault::Because(cause)
    }
}

impl From<AllocError> for LineFault {
    ghost from_gives = { λ _ e. e ≡ line.Memory };

    fn from(_: AllocError) -> Self {
        LineFault::Memory
    }
}

impl<T: Drop> From<AllocFailed<T>> for LineFault {
    ghost from_gives = { λ _ e. e ≡ line.Memory };

    fn from(_: AllocFailed<T>) -> Self {
        LineFault::Memory
    }
}
