//! Shows what the check of resources answers, so that it can be compared with another implementation of it, and
//! timed.
#![tactic(auto)]

pub mod probe_fault;
pub mod resource_lines;

use header_match::RegexPatterns;
use probe_fault::Fault;
use resource_check::{Asked, CheckFault, Checked, check};
use resource_lines::resource;
use std::alloc::Global;
use std::process::ExitCode;
use std::rt::Env;
use std::{env, str};
use xc_base::{Sink, Source, StdSink, StdSource, read_all, write_all};

/// The most bytes that are read.
const MOST: u32 = 67_108_864;

/// What is shown of an answer.
#[derive(Clone, Copy, PartialEq, Eq)]
enum How {
    /// The value, or the name and the reason.
    Whole,
    /// Whether the resource is accepted.
    Judged,
}

/// What the check of a line's resource answers, over patterns that were never asked before.
fn answer(alloc: Global, line: &str) -> Result<Result<Checked, CheckFault>, Fault> {
    let (kind, any) = resource(alloc, line)?;
    if any.value.len() > MOST as usize {
        return Err(Fault::Line);
    }
    let mut asked = Asked::new(alloc);
    let mut patterns = RegexPatterns::new(alloc);
    Ok(check(alloc, kind, &any, &mut asked, &mut patterns))
}

/// A line on the answer.
fn answer_line(alloc: Global, how: How, line: &str) -> Result<String, Fault> {
    let answer = answer(alloc, line)?;
    let text = match how {
        How::Whole => format!(in alloc; "{answer:?}\n")?,
        How::Judged => format!(in alloc; "{}\n", answer.is_ok())?,
    };
    Ok(text)
}

fn show<K: Sink>(alloc: Global, how: How, bytes: &[u8], sink: &mut K) -> Result<(), Fault> {
    let Ok(text) = str::from_utf8(bytes) else {
        return Err(Fault::Line);
    };
    for line in text.lines() {
        write_all(sink, answer_line(alloc, how, line)?.as_bytes())?;
    }
    Ok(())
}

fn run<S: Source, K: Sink>(
    alloc: Global,
    words: &[String],
    source: &mut S,
    sink: &mut K,
) -> Result<(), Fault> {
    let [word] = words else {
        return Err(Fault::Words);
    };
    let how = match word.as_str() {
        "show" => How::Whole,
        "judge" => How::Judged,
        _ => return Err(Fault::Words),
    };
    let bytes = read_all(alloc, source, MOST)?;
    show(alloc, how, &bytes, sink)
}

fn words<R: Env + AllocGlobal>(rt: &R) -> Option<Vec<String>> {
    let mut args = env::args(rt).ok()?;
    let _program = args.next();
    args.collect(rt.alloc()).ok()
}

/// Tells on standard error why there is no answer.
fn tell<R: Eprint>(rt: &R, fault: Fault) {
    let _ = match fault {
        Fault::Words => eprintln!(rt; "usage: probe_resource show | judge"),
        Fault::Read => eprintln!(rt; "probe_resource: read fault"),
        Fault::Write => eprintln!(rt; "probe_resource: write fault"),
        Fault::Line => eprintln!(rt; "probe_resource: a line is no resource"),
        Fault::Memory => eprintln!(rt; "probe_resource: out of memory"),
    };
}

fn main(rt: HostRuntime) -> ExitCode {
    let Some(words) = words(&rt) else {
        tell(&rt, Fault::Words);
        return ExitCode::from(2);
    };
    let mut source = StdSource::new(rt.stdin());
    let mut sink = StdSink::new(rt.stdout());
    match run(rt.alloc(), &words, &mut source, &mut sink) {
        Ok(()) => ExitCode::from(0),
        Err(fault) => {
            tell(&rt, fault);
            ExitCode::from(1)
        }
    }
}
