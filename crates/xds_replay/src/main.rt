//! Replays a session from standard input, and reports it on standard output; or writes the generated session; or plays it
//! and writes its totals.
#![tactic(auto)]

pub mod open_gate;
pub mod program;
pub mod standard_streams;

use header_match::RegexPatterns;
use open_gate::OpenGate;
use program::run;
use program_status::Status;
use standard_streams::{StandardInput, StandardOutput};
use std::alloc::Global;
use std::io::{Read, Write};
use std::process::ExitCode;
use std::rt::Env;
use std::sync::Wait;
use std::thread::Threads;
use std::{env, io};

/// Why there are no words: one of them isn't text, or there was no memory.
fn unread(fault: &io::Error) -> Status {
    match fault.kind() {
        io::ErrorKind::OutOfMemory => Status::Memory,
        _ => Status::Words,
    }
}

/// The words behind the program's name.
fn words<R: Env + AllocGlobal>(rt: &R) -> Result<Vec<String>, Status> {
    let mut args = env::args(rt).map_err(|fault| unread(&fault))?;
    let _program = args.next();
    args.collect(rt.alloc()).map_err(|_| Status::Memory)
}

/// Tells on standard error why the command didn't do its work.
fn tell<R: Eprint>(rt: &R, status: Status) {
    let _ = match status {
        Status::Done => Ok(()),
        Status::Words => eprintln!(rt; "usage: xds_replay run | gen N | load N"),
        Status::Session { line, cause } => {
            eprintln!(rt; "xds_replay: session line {line}: {cause}")
        }
        Status::ReadFault => eprintln!(rt; "xds_replay: read fault"),
        Status::WriteFault => eprintln!(rt; "xds_replay: write fault"),
        Status::Memory => eprintln!(rt; "xds_replay: out of memory"),
    };
}

/// Runs the command over an input and an output, and hands on what the output still has to take.
fn run_over<R: Threads + Wait + Sync, I: Read + Drop, O: Write + Drop>(
    rt: &R,
    alloc: Global,
    words: &[String],
    input: I,
    output: O,
) -> Result<Status, Status> {
    let mut source = StandardInput::new(alloc, input).map_err(|_| Status::Memory)?;
    let mut sink = StandardOutput::new(alloc, output).map_err(|_| Status::Memory)?;
    let mut patterns = RegexPatterns::new(alloc);
    let status = run(
        rt,
        alloc,
        words,
        &mut source,
        &mut sink,
        &mut patterns,
        &OpenGate,
    );
    sink.flush().map_err(|_| Status::WriteFault)?;
    Ok(status)
}

/// The status with which a run ended early or late.
fn either(ended: Result<Status, Status>) -> Status {
    match ended {
        Ok(status) => status,
        Err(status) => status,
    }
}

fn main(rt: HostRuntime) -> ExitCode {
    let status = match words(&rt) {
        Ok(words) => either(run_over(&rt, rt.alloc(), &words, rt.stdin(), rt.stdout())),
        Err(status) => status,
    };
    tell(&rt, status);
    ExitCode::from(status.number())
}
