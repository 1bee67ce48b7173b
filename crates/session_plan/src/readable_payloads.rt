//! Whether a payload can be read as a response, which is told without building the response.
ghost use Rattle.std.specs.Prelude.{◌≡◌, ◌&&◌, ◌<◌, ◌^◌, length, IfOk};
ghost use Rattle.std.specs.List.{list_all};
ghost use Rattle.proto_wire.specs.FieldValues.{delimited_len, is_text, payload_len};
ghost use Rattle.proto_wire.specs.View.{view, views};
ghost use Rattle.session_plan.specs.ReadablePayloads.{are_resources, are_response_fields, are_texts, is_any, is_resource, is_response, is_text_in};

use proto_wire::{Field, WireFault, fields};
use std::alloc::{AllocError, Global};
use std::str;
use xc_base::Memory;

/// Whether the bytes are UTF-8.
fn is_text(bytes: &[u8]) -> bool
    ensures { result ≡ is_text bytes.now }
{
    match str::from_utf8(bytes) {
        Ok(_) => true,
        Err(_) => false,
    }
}

/// Whether what the field says of the number, if anything, is a text.
#[tactic(auto, using(crate::proofs::PayloadLemmas::text_there, crate::proofs::PayloadLemmas::text_absent))]
fn is_text_in(field: &Field<'_>, number: u32) -> bool
    ensures { result ≡ is_text_in number (view field.now) }
{
    match field.bytes(number) {
        Some(bytes) => is_text(bytes),
        None => true,
    }
}

/// Whether no field has something else than a text of the number.
fn all_texts(list: &[Field<'_>], number: u32) -> bool
    ensures { result ≡ list_all (λ f. is_text_in number (view f)) list.now }
{
    list.iter().all(|field| is_text_in(field, number))
}

/// Whether each occurrence of the number is a text.
fn are_texts(list: &[Field<'_>], number: u32) -> bool
    ensures { result ≡ are_texts number (views list.now) }
{
    all_texts(list, number)
}

/// Whether the bytes can be read as an Any.
#[tactic(auto, using(crate::proofs::PayloadLemmas::any_is, crate::proofs::PayloadLemmas::no_any))]
fn is_any(alloc: Global, bytes: &[u8]) -> Result<bool, Memory>
    requires { length bytes.now < 2 ^ 32 }
    ensures { IfOk result (λ reads. reads ≡ is_any bytes.now) }
{
    match fields(alloc, bytes) {
        Ok(list) => Ok(are_texts(&list, 1)),
        Err(WireFault::At(_)) => Ok(false),
        Err(WireFault::Memory) => Err(AllocError),
    }
}

/// Whether the resource that the field holds, if it holds one, can be read.
fn is_resource(alloc: Global, field: &Field<'_>) -> Result<bool, Memory>
    requires { payload_len (view field.now).payload < 2 ^ 32 }
    ensures { IfOk result (λ reads. reads ≡ is_resource (view field.now)) }
{
    match field.bytes(2) {
        Some(bytes) => {
            let reads = is_any(alloc, bytes)?;
            Ok(reads)
        }
        None => Ok(true),
    }
}

/// Whether the resource of one more field can be read, where those of all before it can be.
fn is_resource_too(alloc: Global, all: bool, field: &Field<'_>) -> Result<bool, Memory>
    requires { payload_len (view field.now).payload < 2 ^ 32 }
    ensures { IfOk result (λ now. now ≡ (all && is_resource (view field.now))) }
{
    if !all {
        return Ok(false);
    }
    let reads = is_resource(alloc, field)?;
    Ok(reads)
}

/// Whether each resource among the fields can be read.
fn are_resources(alloc: Global, list: &[Field<'_>]) -> Result<bool, Memory>
    requires { delimited_len (views list.now) < 2 ^ 32 }
    ensures { IfOk result (λ read. read ≡ are_resources (views list.now)) }
{
    let mut all = true;
    for field in list {
        all = is_resource_too(alloc, all, field)?;
    }
    Ok(all)
}

/// Whether each occurrence of the version, of the type URL and of the nonce is a text.
fn has_texts(list: &[Field<'_>]) -> bool
    ensures { result ≡ (are_texts 1 (views list.now) && are_texts 4 (views list.now) && are_texts 5 (views list.now)) }
{
    are_texts(list, 1) && are_texts(list, 4) && are_texts(list, 5)
}

/// Whether the fields are those of a response that can be read.
fn are_response_fields(alloc: Global, list: &[Field<'_>]) -> Result<bool, Memory>
    requires { delimited_len (views list.now) < 2 ^ 32 }
    ensures { IfOk result (λ read. read ≡ are_response_fields (views list.now)) }
{
    if !has_texts(list) {
        return Ok(false);
    }
    let read = are_resources(alloc, list)?;
    Ok(read)
}

/// Whether the payload can be read as a DiscoveryResponse (Envoy's xDS transport), exactly as `read_response` of
/// `proto_discovery` reads it. No response is built: memory is taken for the list of the payload's fields and, one
/// resource after another, for the list of its fields, and no bytes are copied.
#[tactic(auto, using(crate::proofs::PayloadLemmas::response_is, crate::proofs::PayloadLemmas::no_response))]
pub fn is_response(alloc: Global, payload: &[u8]) -> Result<bool, Memory>
    requires { length payload.now < 2 ^ 32 }
    ensures { IfOk result (λ reads. reads ≡ is_response payload.now) }
{
    match fields(alloc, payload) {
        Ok(list) => {
            let read = are_response_fields(alloc, &list)?;
            Ok(read)
        }
        Err(WireFault::At(_)) => Ok(false),
        Err(WireFault::Memory) => Err(AllocError),
    }
}
