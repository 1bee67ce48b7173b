//! The text of a refusal, which a NACK carries in its `error_detail` (Envoy's xDS transport, "ACK and NACK").
ghost use Rattle.std.specs.Prelude.{◌≡◌, ◌++◌, ◌||◌, codes, if◌then◌else◌, Some, None, IfOk, OnOk};
ghost use Rattle.std.specs.String.{string_bytes};
ghost use Rattle.xc_base.specs.Reasons.{reason_word};
ghost use Rattle.xds_history.specs.Requests.{name_text};
ghost use Rattle.book_streams.specs.StreamsLaws.{error_in};
ghost use Rattle.book_streams.specs.RefusalText.{behind, is_refused, part_text};

use std::alloc::Global;
use xc_base::{Memory, Reason, Text};
use xds_history::Delivery;

/// Adds the name of a resource, or its place where it has none.
fn push_name(
    alloc: Global,
    place: usize,
    name: &Option<Text>,
    text: &mut String,
) -> Result<(), Memory>
    ensures { OnOk result (string_bytes text.new ≡ string_bytes text.old ++ name_text place name.now) }
{
    match name {
        Some(name) => text.push_str(name.as_str())?,
        None => {
            let words = format!(in alloc; "resource {place}")?;
            text.push_str(words.as_str())?;
        }
    }
    Ok(())
}

/// Adds what stands between two refusals, where another one stands before.
fn push_behind(is_later: bool, text: &mut String) -> Result<(), Memory>
    ensures { OnOk result (string_bytes text.new ≡ string_bytes text.old ++ behind is_later) }
{
    if is_later {
        text.push_str("; ")?;
    }
    Ok(())
}

/// Adds a refused resource: its name, or its place where it has none, and the reason.
fn push_refusal(
    alloc: Global,
    place: usize,
    name: &Option<Text>,
    reason: Reason,
    text: &mut String,
) -> Result<(), Memory>
    ensures { OnOk result (string_bytes text.new ≡ string_bytes text.old ++ (name_text place name.now ++ (codes ": " ++ reason_word reason))) }
{
    push_name(alloc, place, name, text)?;
    text.push_str(": ")?;
    text.push_str(reason.word())?;
    Ok(())
}

/// Adds a resource, if it is refused, behind those before it. It answers whether one was refused up to here.
fn push_part(
    alloc: Global,
    place: usize,
    part: &Delivery,
    is_later: bool,
    text: &mut String,
) -> Result<bool, Memory>
    ensures later { IfOk result (λ later. later ≡ (is_later || is_refused part.now)) }
    ensures text { OnOk result (string_bytes text.new ≡ string_bytes text.old ++ part_text place part.now is_later) }
{
    match part.result {
        Ok(_) => Ok(is_later),
        Err(reason) => {
            push_behind(is_later, text)?;
            push_refusal(alloc, place, &part.name, reason, text)?;
            Ok(true)
        }
    }
}

/// The text, where there is one.
fn text_if(alloc: Global, is_some: bool, text: String) -> Result<Option<Text>, Memory>
    ensures { IfOk result (λ found. found ≡ (if is_some then Some (string_bytes text) else None)) }
{
    if is_some {
        Ok(Some(Text::from_string(alloc, text)?))
    } else {
        Ok(None)
    }
}

/// The text of a refusal: the refused resources in their order, each by its name, or as `resource` with its place from 0
/// where it has none, with the reason; they stand apart by `; `. There is none where no resource is refused. It is written once from left to
/// right, and fails for want of memory alone.
pub fn error_in(alloc: Global, parts: &[Delivery]) -> Result<Option<Text>, Memory>
    ensures { IfOk result (λ error. error ≡ error_in parts.now) }
{
    let mut text = String::new(alloc);
    let mut is_later = false;
    for place in 0..parts.len() {
        is_later = push_part(alloc, place, &parts[place], is_later, &mut text)?;
    }
    let error = text_if(alloc, is_later, text)?;
    Ok(error)
}
