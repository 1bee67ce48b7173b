//! The line of a caller's entry.
ghost use Rattle.std.specs.Prelude.{◌≡◌, ◌++◌, [], OnOk, option_and_then, option_copied, string_bytes, unwrap_or};
ghost use Rattle.report_parts.specs.Callers.{address_of, answer_text, caller_event_text, caller_line, caller_reply_text, category_of, cluster_in, drop_reply, endpoint_reply};

use crate::pick_places::{address_of, category_of, picker_in};
use crate::report_words::push_name;
use call_journal::{CallerEvent, CallerReply};
use cluster_tree::Snapshot;
use route_match::{RouteAnswer, cluster_of};
use std::fmt::Write;
use weighted_lb::Picker;
use xc_base::{Address, Memory, Text};

/// Adds what a caller's event is, with the number of its call.
fn push_event(out: &mut String, event: &CallerEvent) -> Result<(), Memory>
    ensures { OnOk result (string_bytes out.new ≡ string_bytes out.old ++ caller_event_text event.now) }
{
    match event {
        CallerEvent::Pin(call) => {
            let id = call.get().id.0;
            write!(out, "pin {id}")
        }
        CallerEvent::Hold(call) => {
            let id = call.get().id.0;
            write!(out, "hold {id}")
        }
        CallerEvent::Pick { call, .. } => {
            let id = call.0;
            write!(out, "pick {id}")
        }
        CallerEvent::Commit(call) => {
            let id = call.0;
            write!(out, "commit {id}")
        }
    }
}

/// The cluster that an answer leads to in a snapshot.
pub fn cluster_in<'a>(snapshot: Option<&'a Snapshot>, answer: &RouteAnswer) -> Option<&'a Text>
    ensures { option_copied result ≡ cluster_in (option_copied snapshot.entry) answer.now }
{
    match &snapshot?.config.get().front {
        Ok(front) => cluster_of(front, answer),
        Err(_) => None,
    }
}

/// Adds what a hold is answered: the route with its cluster, or why there is none.
fn push_answer(
    out: &mut String,
    snapshot: Option<&Snapshot>,
    answer: &RouteAnswer,
) -> Result<(), Memory>
    ensures { OnOk result (string_bytes out.new ≡ string_bytes out.old ++ answer_text (option_copied snapshot.entry) answer.now) }
{
    match answer {
        RouteAnswer::To { route, .. } => {
            write!(out, "to {route} ")?;
            push_name(out, cluster_in(snapshot, answer))
        }
        RouteAnswer::NoRoute => out.push_str("noroute"),
        RouteAnswer::NoAction { route } => write!(out, "noaction {route}"),
        RouteAnswer::NoFront { reason } => write!(out, "nofront {reason}"),
    }
}

/// The READY endpoint that a picker has there.
fn picked_address(picker: Option<&Picker>, locality: u32, place: u32) -> Option<&Address>
    ensures { option_copied result ≡ option_and_then (λ p. address_of p locality place) (option_copied picker.entry) }
{
    address_of(picker?, locality, place)
}

/// The text of an address, or nothing where there is none.
fn address_word(address: Option<&Address>) -> &str
    ensures { result.now ≡ unwrap_or (option_copied address.entry) [] }
{
    match address {
        Some(address) => address.as_str(),
        None => "",
    }
}

/// Adds what a pick of an endpoint is answered, with the places of the endpoint.
fn push_endpoint_reply(
    out: &mut String,
    picker: Option<&Picker>,
    snapshot: u32,
    child: u32,
    locality: u32,
    place: u32,
) -> Result<(), Memory>
    ensures { OnOk result (string_bytes out.new ≡ string_bytes out.old ++ endpoint_reply (option_copied picker.entry) snapshot child locality place) }
{
    let address = address_word(picked_address(picker, locality, place));
    write!(
        out,
        "endpoint {address} at {snapshot} child {child} locality {locality} place {place}"
    )
}

/// The category of a rule of a picker.
fn dropped_category(picker: Option<&Picker>, rule: u32) -> Option<&Text>
    ensures { option_copied result ≡ option_and_then (λ p. category_of p rule) (option_copied picker.entry) }
{
    category_of(picker?, rule)
}

/// Adds what a dropped pick is answered, with the category of the drop rule.
fn push_drop_reply(
    out: &mut String,
    picker: Option<&Picker>,
    snapshot: u32,
    rule: u32,
) -> Result<(), Memory>
    ensures { OnOk result (string_bytes out.new ≡ string_bytes out.old ++ drop_reply (option_copied picker.entry) snapshot rule) }
{
    out.push_str("drop ")?;
    push_name(out, dropped_category(picker, rule))?;
    write!(out, " at {snapshot}")
}

/// Adds what a caller's event is answered.
fn push_reply(
    out: &mut String,
    snapshot: Option<&Snapshot>,
    cluster: Option<&Text>,
    reply: &CallerReply,
) -> Result<(), Memory>
    ensures { OnOk result (string_bytes out.new ≡ string_bytes out.old ++ caller_reply_text (option_copied snapshot.entry) (option_copied cluster.entry) reply.now) }
{
    match reply {
        CallerReply::Pinned(number) => write!(out, "at {number}"),
        CallerReply::NoSnapshot => out.push_str("nosnapshot"),
        CallerReply::Routed {
            snapshot: number,
            answer,
        } => {
            push_answer(out, snapshot, answer)?;
            write!(out, " at {number}")
        }
        CallerReply::Endpoint {
            snapshot: number,
            child,
            locality,
            place,
        } => {
            let picker = picker_in(snapshot, cluster);
            push_endpoint_reply(out, picker, *number, *child, *locality, *place)
        }
        CallerReply::Queue { snapshot: number } => write!(out, "queue at {number}"),
        CallerReply::Fail {
            snapshot: number,
            reason,
        } => { write!(out, "fail {reason} at {number}") }
        CallerReply::Drop {
            snapshot: number,
            rule,
        } => push_drop_reply(out, picker_in(snapshot, cluster), *number, *rule),
        CallerReply::NotHeld => out.push_str("notheld"),
        CallerReply::Released => out.push_str("released"),
    }
}

/// Adds the line of a caller's entry, behind its numbers: with the snapshot that the reply names, and for a
/// pick with the cluster that the call held before the entry.
#[tactic(auto, unfolding(crate::specs::Callers::caller_line))]
pub fn push_caller_line(
    out: &mut String,
    snapshot: Option<&Snapshot>,
    cluster: Option<&Text>,
    actor: u16,
    event: &CallerEvent,
    reply: &CallerReply,
) -> Result<(), Memory>
    ensures { OnOk result (string_bytes out.new ≡ string_bytes out.old ++ caller_line (option_copied snapshot.entry) (option_copied cluster.entry) actor event.now reply.now) }
{
    write!(out, "c{actor} ")?;
    push_event(out, event)?;
    out.push_str(" ")?;
    push_reply(out, snapshot, cluster, reply)?;
    out.push_str("\n")
}
