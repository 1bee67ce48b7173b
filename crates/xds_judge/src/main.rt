//! Judges whether a report is that of a legal history of a session, both in files.
#![tactic(auto)]

pub mod endings;
pub mod file_bytes;

use endings::{Ending, USAGE};
use file_bytes::read_file;
use header_match::RegexPatterns;
use report_judge::judge;
use std::process::ExitCode;
use std::rt::{Env, Files};
use std::sync::Wait;
use std::{env, io};

/// A session has no more bytes; one more is read, so that it is seen that there are more.
const MOST_OF_SESSION: u64 = 67_108_865;

/// Why there are no words: one of them isn't text, or there was no memory.
fn unread(fault: &io::Error) -> Ending {
    match fault.kind() {
        io::ErrorKind::OutOfMemory => Ending::Memory,
        _ => Ending::Words,
    }
}

/// The words behind the program's name.
fn words<R: Env + AllocGlobal>(rt: &R) -> Result<Vec<String>, Ending> {
    let mut args = env::args(rt).map_err(|fault| unread(&fault))?;
    let _program = args.next();
    args.collect(rt.alloc()).map_err(|_| Ending::Memory)
}

/// Judges a report in a file by the session of another one. The report's file is read to its end.
fn judge_files<R: Files + AllocGlobal + Wait + Sync>(
    rt: &R,
    session: &str,
    report: &str,
) -> Result<Ending, Ending> {
    let session = read_file(rt, session, MOST_OF_SESSION)?;
    let report = read_file(rt, report, u64::MAX)?;
    let mut patterns = RegexPatterns::new(rt.alloc());
    Ok(Ending::Judged(judge(rt.alloc(), rt, &session, &report, &mut patterns)))
}

/// Prints how the program is called.
fn help<R: Print>(rt: &R) -> Ending {
    match println!(rt; "{USAGE}") {
        Ok(()) => Ending::Helped,
        Err(_) => Ending::WriteFault,
    }
}

/// Does what the words ask for.
fn answer<R: Files + AllocGlobal + Print + Wait + Sync>(rt: &R, words: &[String]) -> Ending {
    match words {
        [word] if word.as_str() == "-h" || word.as_str() == "--help" => help(rt),
        [session, report] => match judge_files(rt, session.as_str(), report.as_str()) {
            Ok(ending) => ending,
            Err(ending) => ending,
        },
        _ => Ending::Words,
    }
}

fn main(rt: HostRuntime) -> ExitCode {
    let ending = match words(&rt) {
        Ok(words) => answer(&rt, &words),
        Err(ending) => ending,
    };
    ending.tell(&rt);
    ExitCode::from(ending.number())
}
