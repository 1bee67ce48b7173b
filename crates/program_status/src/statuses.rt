//! How a run ended.
ghost use Rattle.std.specs.Prelude.{◌≡◌};
ghost use Rattle.program_status.specs.Statuses.{read_status, status_of, write_status};

use line_output::OutFault;
use session_lines::{Cause, SessionFault};
use xc_base::ReadFault;

/// How a run ended.
#[derive(Clone, Copy, PartialEq, Eq)]
pub enum Status {
    /// The command did its work.
    Done,
    /// The words aren't those of a command.
    Words,
    /// The bytes aren't a session: the first fault, and the number of its line.
    Session { line: u32, cause: Cause },
    /// The source failed.
    ReadFault,
    /// The sink failed. What is written is a prefix of what was to be written.
    WriteFault,
    /// There was no memory. What is written is nothing, or such a prefix.
    Memory,
}

impl Status {
    /// The number with which the program ends.
    pub fn number(self) -> u8 {
        match self {
            Status::Done => 0,
            Status::Words => 2,
            Status::Session { .. } => 3,
            Status::ReadFault => 4,
            Status::WriteFault => 5,
            Status::Memory => 6,
        }
    }
}

/// The status of a source that wasn't read to its end.
pub fn read_status(fault: ReadFault) -> Status
    ensures { result ≡ read_status fault }
{
    match fault {
        ReadFault::Failed => Status::ReadFault,
        ReadFault::Memory => Status::Memory,
    }
}

/// The status of bytes that are no session, or that weren't read as one for want of memory.
pub fn status_of(fault: SessionFault) -> Status
    ensures { result ≡ status_of fault }
{
    match fault {
        SessionFault::Script { line, cause } => Status::Session { line, cause },
        SessionFault::Memory => Status::Memory,
    }
}

/// The status of what was written.
pub fn write_status(outcome: Result<(), OutFault>) -> Status
    ensures { result ≡ write_status outcome }
{
    match outcome {
        Ok(()) => Status::Done,
        Err(OutFault::WriteFault) => Status::WriteFault,
        Err(OutFault::Memory) => Status::Memory,
    }
}
