//! Shows how many lines a session has from line 5 on, or its first fault, so that the reading of sessions can
//! be compared with another implementation of it.
#![tactic(auto)]

ghost use Rattle.std.specs.Prelude.{◌≡◌, ◌+◌, ◌≤◌, IfOk, string_bytes};
ghost use Rattle.session_lines.specs.Before.{entries};
ghost use Rattle.session_lines.specs.Session.{session_of};
ghost use Rattle.probe_session.specs.Shown.{refusal_line, session_line, shown};
ghost use Rattle.probe_session.specs.declared.Fault.TheVariants.{Memory, Write};

use session_script::{Cause, Session, SessionFault, read_session, room};
use std::alloc::{AllocError, Global};
use std::process::ExitCode;
use xc_base::{Failed, ReadFault, Sink, Source, StdSink, StdSource, read_all, write_all};

/// The most bytes that are read: one more than a session may have.
const MOST: u32 = 67_108_865;

/// Why nothing is shown.
#[derive(Clone, Copy, PartialEq, Eq)]
enum Fault {
    /// The input failed.
    Read,
    /// The output failed.
    Write,
    /// There was no memory.
    Memory,
}

impl From<ReadFault> for Fault {
    fn from(fault: ReadFault) -> Self {
        match fault {
            ReadFault::Failed => Fault::Read,
            ReadFault::Memory => Fault::Memory,
        }
    }
}

impl From<AllocError> for Fault {
    ghost from_gives = { λ _ fault. fault ≡ Memory };

    fn from(_: AllocError) -> Self {
        Fault::Memory
    }
}

impl From<Failed> for Fault {
    ghost from_gives = { λ _ fault. fault ≡ Write };

    fn from(_: Failed) -> Self {
        Fault::Write
    }
}

/// The line of a session: how many lines it has from line 5 on, and how many entries it makes at most.
fn session_line(alloc: Global, session: &Session) -> Result<String, Fault>
    requires { entries session.now.lines + 1 ≤ 1048576 }
    ensures { IfOk result (λ text. string_bytes text ≡ session_line session.now) }
{
    let lines = session.lines.len();
    let room = room(session);
    let text = format!(in alloc; "lines {lines} room {room}\n")?;
    Ok(text)
}

/// The line of a fault.
fn refusal_line(alloc: Global, line: u32, cause: Cause) -> Result<String, Fault>
    ensures { IfOk result (λ text. string_bytes text ≡ refusal_line (record { line = line; cause = cause })) }
{
    let text = format!(in alloc; "fault {line} {cause}\n")?;
    Ok(text)
}

/// What the bytes of a session show, in one line.
fn answer_line(alloc: Global, bytes: &[u8]) -> Result<String, Fault>
    ensures { IfOk result (λ text. string_bytes text ≡ shown (session_of bytes.now)) }
{
    match read_session(alloc, bytes) {
        Ok(session) => session_line(alloc, &session),
        Err(SessionFault::Script { line, cause }) => refusal_line(alloc, line, cause),
        Err(SessionFault::Memory) => Err(Fault::Memory),
    }
}

/// Reads all bytes and writes what they show.
fn run<S: Source, K: Sink>(alloc: Global, source: &mut S, sink: &mut K) -> Result<(), Fault> {
    let bytes = read_all(alloc, source, MOST)?;
    let text = answer_line(alloc, &bytes)?;
    write_all(sink, text.as_bytes())?;
    Ok(())
}

/// Tells on standard error why there is no answer.
fn tell<R: Eprint>(rt: &R, fault: Fault) {
    let _ = match fault {
        Fault::Read => eprintln!(rt; "probe_session: read fault"),
        Fault::Write => eprintln!(rt; "probe_session: write fault"),
        Fault::Memory => eprintln!(rt; "probe_session: out of memory"),
    };
}

fn main(rt: HostRuntime) -> ExitCode {
    let mut source = StdSource::new(rt.stdin());
    let mut sink = StdSink::new(rt.stdout());
    match run(rt.alloc(), &mut source, &mut sink) {
        Ok(()) => ExitCode::from(0),
        Err(fault) => {
            tell(&rt, fault);
            ExitCode::from(1)
        }
    }
}
