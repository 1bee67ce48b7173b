//! Writing fields, in their shortest spelling.
ghost use Rattle.std.specs.Prelude.{◌≡◌, ◌++◌, OnOk, OnErr};
ghost use Rattle.proto_wire.specs.Spelling.{spelled_within, spelled_uint, spelled_bytes, number_field, text_field};

use crate::varint::MOST_VARINT_BYTES;
use std::alloc::Global;
use xc_base::{List, Memory};

/// The wire type of a length and that many bytes.
const DELIMITED: u64 = 2;

/// Adds a varint of at most n bytes. For want of memory a part of it may have been added.
fn put_within(out: &mut Vec<u8>, n: u32, v: u64) -> Result<(), Memory>
    ensures { OnOk result (out.new.items ≡ out.old.items ++ spelled_within n v) }
{
    if n == 0 {
        return Ok(());
    }
    if v < 128 {
        out.push(v as u8)?;
        return Ok(());
    }
    out.push((128 + v % 128) as u8)?;
    put_within(out, n - 1, v / 128)?;
    Ok(())
}

/// Writes a varint: the field's tag, and the number in its shortest form. For want of memory nothing is
/// written.
pub fn put_uint(alloc: Global, out: &mut List<u8>, number: u32, v: u64) -> Result<(), Memory>
    ensures ok { OnOk result (out.new ≡ out.old ++ spelled_uint number v) }
    ensures err { OnErr result (out.new ≡ out.old) }
{
    let mut field = Vec::new(alloc);
    put_within(&mut field, MOST_VARINT_BYTES, 8 * u64::from(number))?;
    put_within(&mut field, MOST_VARINT_BYTES, v)?;
    out.extend_from_slice(&field)
}

/// Writes bytes, a text or a message: the field's tag, the length in its shortest form, and the bytes.
/// For want of memory nothing is written.
pub fn put_bytes(alloc: Global, out: &mut List<u8>, number: u32, v: &[u8]) -> Result<(), Memory>
    ensures ok { OnOk result (out.new ≡ out.old ++ spelled_bytes number v.now) }
    ensures err { OnErr result (out.new ≡ out.old) }
{
    let mut field = Vec::new(alloc);
    put_within(
        &mut field,
        MOST_VARINT_BYTES,
        8 * u64::from(number) + DELIMITED,
    )?;
    put_within(&mut field, MOST_VARINT_BYTES, v.len() as u64)?;
    field.extend_from_slice(v)?;
    out.extend_from_slice(&field)
}

/// Writes a number that isn't a member of a oneof, which isn't written where it is 0. For want of memory
/// nothing is written.
#[tactic(auto, unfolding(crate::specs::Spelling::number_field))]
pub fn put_number(alloc: Global, out: &mut List<u8>, number: u32, v: u64) -> Result<(), Memory>
    ensures ok { OnOk result (out.new ≡ out.old ++ number_field number v) }
    ensures err { OnErr result (out.new ≡ out.old) }
{
    if v == 0 {
        return Ok(());
    }
    put_uint(alloc, out, number, v)
}

/// Writes a text that isn't a member of a oneof, which isn't written where it is empty. For want of
/// memory nothing is written.
#[tactic(auto, unfolding(crate::specs::Spelling::text_field))]
pub fn put_text(alloc: Global, out: &mut List<u8>, number: u32, text: &str) -> Result<(), Memory>
    ensures ok { OnOk result (out.new ≡ out.old ++ text_field number text.now) }
    ensures err { OnErr result (out.new ≡ out.old) }
{
    if text.is_empty() {
        return Ok(());
    }
    put_bytes(alloc, out, number, text.as_bytes())
}
