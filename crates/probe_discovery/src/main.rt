//! Shows what a DiscoveryResponse says, and writes the DiscoveryRequest that is made of its parts, so that the two can be
//! compared with another implementation of these messages.
#![tactic(auto)]

pub mod request_of_response;
pub mod show;
pub mod show_fault;

use proto_discovery::{Response, read_response, write_request};
use request_of_response::request_of;
use show::response_text;
use show_fault::Fault;
use std::alloc::Global;
use std::env;
use std::process::ExitCode;
use std::rt::Env;
use xc_base::{List, Sink, Source, StdSink, StdSource, read_all, write_all};

/// The most bytes that are read: 64 MiB.
const MOST: u32 = 67_108_864;

/// The response on the source.
fn response_of<S: Source>(alloc: Global, source: &mut S) -> Result<Response, Fault> {
    let bytes = read_all(alloc, source, MOST)?;
    if bytes.len() > MOST as usize {
        return Err(Fault::Read);
    }
    Ok(read_response(alloc, &bytes)?)
}

/// Writes what a response says.
fn show_response<K: Sink>(alloc: Global, response: &Response, sink: &mut K) -> Result<(), Fault> {
    let text = response_text(alloc, response)?;
    write_all(sink, text.as_bytes())?;
    Ok(())
}

/// Writes the request of a response's parts.
fn show_request<K: Sink>(alloc: Global, response: &Response, sink: &mut K) -> Result<(), Fault> {
    let request = request_of(alloc, response)?;
    let mut out = List::new(alloc);
    write_request(alloc, &request, &mut out)?;
    write_all(sink, out.as_slice())?;
    Ok(())
}

/// Does what the one word says over the response on the source.
fn run<S: Source, K: Sink>(
    alloc: Global,
    words: &[String],
    source: &mut S,
    sink: &mut K,
) -> Result<(), Fault> {
    let [word] = words else {
        return Err(Fault::Words);
    };
    let response = response_of(alloc, source)?;
    match word.as_str() {
        "response" => show_response(alloc, &response, sink),
        "request" => show_request(alloc, &response, sink),
        _ => Err(Fault::Words),
    }
}

/// The words after the name of the program.
fn words<R: Env + AllocGlobal>(rt: &R) -> Option<Vec<String>> {
    let mut args = env::args(rt).ok()?;
    let _program = args.next();
    args.collect(rt.alloc()).ok()
}

fn main(rt: HostRuntime) -> ExitCode {
    let Some(words) = words(&rt) else {
        return ExitCode::from(2);
    };
    let mut source = StdSource::new(rt.stdin());
    let mut sink = StdSink::new(rt.stdout());
    match run(rt.alloc(), &words, &mut source, &mut sink) {
        Ok(()) => ExitCode::from(0),
        Err(fault) => {
            let _ = eprintln!(rt; "probe_discovery: {fault:?}");
            ExitCode::from(1)
        }
    }
}
