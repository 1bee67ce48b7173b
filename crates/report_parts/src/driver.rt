//! The line of a driver's entry.
ghost use Rattle.std.specs.Prelude.{◌≡◌, ◌++◌, OnOk, string_bytes};
ghost use Rattle.report_parts.specs.Driver.{driver_line, endpoint_text, event_text, how_text, missing_text, outcome_text, verdict_text};

use crate::report_words::{kind_word, push_authority};
use ads_stream::Verdict;
use call_journal::{BytesHow, DriverEvent, DriverReply};
use std::fmt::Write;
use tree_text::{push_escaped, state_word};
use xc_base::{Address, Key, Memory, State};
use xds_bootstrap::Bootstrap;

/// Adds an endpoint's address with the state that is reported of it.
fn push_endpoint(out: &mut String, address: &Address, state: State) -> Result<(), Memory>
    ensures { OnOk result (string_bytes out.new ≡ string_bytes out.old ++ endpoint_text address.now state) }
{
    let state = state_word(state);
    write!(out, "endpoint {address} {state}")
}

/// Adds what a driver's event is, with its authority, its time or its endpoint.
fn push_event(out: &mut String, boot: &Bootstrap, event: &DriverEvent) -> Result<(), Memory>
    ensures { OnOk result (string_bytes out.new ≡ string_bytes out.old ++ event_text boot.now.authorities event.now) }
{
    match event {
        DriverEvent::Opened(authority) => {
            out.push_str("open ")?;
            push_authority(out, boot, *authority)
        }
        DriverEvent::Response { authority, .. } => {
            out.push_str("response ")?;
            push_authority(out, boot, *authority)
        }
        DriverEvent::Bytes { authority, .. } => {
            out.push_str("bytes ")?;
            push_authority(out, boot, *authority)
        }
        DriverEvent::Lost(authority) => {
            out.push_str("lost ")?;
            push_authority(out, boot, *authority)
        }
        DriverEvent::Moment(time) => {
            let ms = time.0;
            write!(out, "time {ms}")
        }
        DriverEvent::Endpoint { address, state } => push_endpoint(out, address.get(), *state),
        DriverEvent::Sweep => out.push_str("sweep"),
    }
}

/// Adds what became of bytes.
fn push_how(out: &mut String, how: BytesHow) -> Result<(), Memory>
    ensures { OnOk result (string_bytes out.new ≡ string_bytes out.old ++ how_text how) }
{
    match how {
        BytesHow::Whole => out.push_str("ok"),
        BytesHow::Closed => out.push_str("closed"),
        BytesHow::Compressed => out.push_str("compressed"),
        BytesHow::TooLong(n) => write!(out, "toolong {n}"),
        BytesHow::Ended => out.push_str("ended"),
    }
}

/// Adds what became of any other event.
fn push_verdict(out: &mut String, verdict: Verdict) -> Result<(), Memory>
    ensures { OnOk result (string_bytes out.new ≡ string_bytes out.old ++ verdict_text verdict) }
{
    match verdict {
        Verdict::Done => out.push_str("ok"),
        Verdict::Closed => out.push_str("closed"),
        Verdict::Ack(kind) => {
            let kind = kind_word(kind);
            write!(out, "ack {kind}")
        }
        Verdict::Nack(kind) => {
            let kind = kind_word(kind);
            write!(out, "nack {kind}")
        }
        Verdict::Ignored => out.push_str("ignored"),
        Verdict::Unreadable => out.push_str("unreadable"),
    }
}

/// Adds what became of an event.
fn push_outcome(out: &mut String, event: &DriverEvent, verdict: Verdict) -> Result<(), Memory>
    ensures { OnOk result (string_bytes out.new ≡ string_bytes out.old ++ outcome_text event.now verdict) }
{
    match event {
        DriverEvent::Bytes { how, .. } => push_how(out, *how),
        DriverEvent::Opened(_)
        | DriverEvent::Response { .. }
        | DriverEvent::Lost(_)
        | DriverEvent::Moment(_)
        | DriverEvent::Endpoint { .. }
        | DriverEvent::Sweep => push_verdict(out, verdict),
    }
}

/// Adds the key that is awaited, or that none is.
fn push_missing(out: &mut String, missing: &Option<Key>) -> Result<(), Memory>
    ensures { OnOk result (string_bytes out.new ≡ string_bytes out.old ++ missing_text missing.now) }
{
    match missing {
        None => out.push_str(" whole"),
        Some(key) => {
            let kind = kind_word(key.kind);
            write!(out, " wait {kind}:")?;
            push_escaped(out, &key.name)
        }
    }
}

/// Adds the line of a driver's entry, behind its numbers.
#[tactic(auto, unfolding(crate::specs::Driver::driver_line))]
pub fn push_driver_line(
    out: &mut String,
    boot: &Bootstrap,
    event: &DriverEvent,
    reply: &DriverReply,
) -> Result<(), Memory>
    ensures { OnOk result (string_bytes out.new ≡ string_bytes out.old ++ driver_line boot.now.authorities event.now reply.now) }
{
    out.push_str("d ")?;
    push_event(out, boot, event)?;
    out.push_str(" ")?;
    push_outcome(out, event, reply.verdict)?;
    push_missing(out, &reply.missing)?;
    out.push_str("\n")
}
