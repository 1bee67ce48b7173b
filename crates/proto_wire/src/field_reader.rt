//! Reading the list of fields.
ghost use Rattle.std.specs.Prelude.{◌≡◌, ◌<◌, ◌≤◌, ◌^◌, ◌+◌, length, IfOk, IfSome};
ghost use Rattle.std.specs.Int.{w32, w64};
ghost use Rattle.proto_wire.specs.Reading.{Gives};
ghost use Rattle.proto_wire.specs.FieldValues.{payload_len, delimited_len};
ghost use Rattle.proto_wire.specs.View.{seen, seen_delimited, seen_payload, seen_field, payload_of, views};
ghost use Rattle.proto_wire.specs.Wire.{fixed_at, delimited_at, payload_at, field_at, fields};

use crate::field::{Body, Field, WireFault};
use crate::varint::varint;
use std::alloc::Global;

/// The greatest number that a field can have, 2^29 - 1.
const MOST_NUMBER: u64 = 536_870_911;

/// A number of 32 bits, the low byte first, and the bytes after it.
fn fixed32(bytes: &[u8]) -> Option<(u32, &[u8])>
    ensures value { seen result ≡ fixed_at w32 bytes.now }
    ensures shorter { IfSome result (λ r. length r.1.now < length bytes.now) }
{
    if bytes.len() < 4 {
        return None;
    }
    let (low_first, rest) = bytes.split_at(4);
    let number = u32::from_le_bytes([low_first[0], low_first[1], low_first[2], low_first[3]]);
    Some((number, rest))
}

/// A number of 64 bits, the low byte first, and the bytes after it.
fn fixed64(bytes: &[u8]) -> Option<(u64, &[u8])>
    ensures value { seen result ≡ fixed_at w64 bytes.now }
    ensures shorter { IfSome result (λ r. length r.1.now < length bytes.now) }
{
    if bytes.len() < 8 {
        return None;
    }
    let (low_first, rest) = bytes.split_at(8);
    let number = u64::from_le_bytes([
        low_first[0],
        low_first[1],
        low_first[2],
        low_first[3],
        low_first[4],
        low_first[5],
        low_first[6],
        low_first[7],
    ]);
    Some((number, rest))
}

/// A length and that many bytes, and the bytes after them.
#[tactic(auto, unfolding(crate::specs::Wire::delimited_at))]
fn read_delimited(bytes: &[u8]) -> Option<(&[u8], &[u8])>
    ensures value { seen_delimited result ≡ delimited_at bytes.now }
    ensures shorter { IfSome result (λ r. length r.0.now + length r.1.now < length bytes.now) }
{
    let (len, rest) = varint(bytes)?;
    if (rest.len() as u64) < len {
        return None;
    }
    Some(rest.split_at(len as usize))
}

/// What a field of the wire type holds, and the bytes after it. Wire types 3, 4, 6 and 7 have nothing to read.
#[tactic(auto, unfolding(crate::specs::Wire::payload_at))]
fn payload(wire_type: u64, bytes: &[u8]) -> Option<(Body<'_>, &[u8])>
    ensures value { seen_payload result ≡ payload_at wire_type bytes.now }
    ensures shorter { IfSome result (λ r. payload_len (payload_of r.0) + length r.1.now < length bytes.now) }
{
    match wire_type {
        0 => {
            let (v, rest) = varint(bytes)?;
            Some((Body::Varint(v), rest))
        }
        1 => {
            let (v, rest) = fixed64(bytes)?;
            Some((Body::Eight(v), rest))
        }
        2 => {
            let (v, rest) = read_delimited(bytes)?;
            Some((Body::Bytes(v), rest))
        }
        5 => {
            let (v, rest) = fixed32(bytes)?;
            Some((Body::Four(v), rest))
        }
        _ => None,
    }
}

/// A field's number, what it holds, and the bytes after it.
#[tactic(auto, unfolding(crate::specs::Wire::field_at))]
fn field(bytes: &[u8]) -> Option<(u32, Body<'_>, &[u8])>
    ensures value { seen_field result ≡ field_at bytes.now }
    ensures shorter { IfSome result (λ r. payload_len (payload_of r.1) + length r.2.now < length bytes.now) }
{
    let (tag, rest) = varint(bytes)?;
    let (body, rest) = payload(tag % 8, rest)?;
    let number = tag / 8;
    if number == 0 || number > MOST_NUMBER {
        return None;
    }
    Some((number as u32, body, rest))
}

/// The fields of a message, which are the one list of fields that spells the bytes. `At` is the place
/// of the first field that can't be read: one of wire type 3, 4, 6 or 7, with a number that isn't 1 to
/// 536,870,911, with a varint of more than ten bytes or of 2^64 or more, or one that runs past the end
/// (protobuf encoding: Message Structure). `Memory` comes where the list has no room.
pub fn fields(alloc: Global, bytes: &[u8]) -> Result<Vec<Field<'_>>, WireFault>
    requires { length bytes.now < 2 ^ 32 }
    ensures list { Gives (λ v. views v.items) result (fields bytes.now) }
    // What they hold lies in the bytes.
    ensures within { IfOk result (λ v. delimited_len (views v.items) ≤ length bytes.now) }
{
    let mut list = Vec::new(alloc);
    let mut rest = bytes;
    while !rest.is_empty() {
        let at = (bytes.len() - rest.len()) as u32;
        let Some((number, body, after)) = field(rest) else {
            return Err(WireFault::At(at));
        };
        match list.push(Field { at, number, body }) {
            Ok(()) => (),
            Err(_) => return Err(WireFault::Memory),
        }
        rest = after;
    }
    Ok(list)
}
