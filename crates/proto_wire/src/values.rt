//! The values of a number in a list of fields.
ghost use Rattle.std.specs.Prelude.{◌≡◌, ◌≤◌, ◌++◌, [], length, map, unwrap_or, Some, IfOk, IfSome};
ghost use Rattle.std.specs.List.{list_any};
ghost use Rattle.proto_wire.specs.Reading.{Gives};
ghost use Rattle.proto_wire.specs.FieldValues.{last_uint, last_uint32, last_int64, last_bool, last_bytes, last_text, texts, joined, repeated, oneof_of, occurrences, last_run, delimited_len, as_text, is_of};
ghost use Rattle.proto_wire.specs.View.{now, view, views};

use crate::field::{Field, Member, WireFault};
use std::alloc::Global;
use std::str;
use xc_base::{List, Memory, Text};

/// The last varint of the number, 0 where there is none. It takes no memory.
#[tactic(auto, unfolding(crate::specs::FieldValues::last_uint))]
pub fn last_uint(list: &[Field<'_>], number: u32) -> u64
    ensures { result ≡ last_uint number (views list.now) }
{
    let mut last = None;
    for field in list {
        if let Some(v) = field.uint(number) {
            last = Some(v);
        }
    }
    last.unwrap_or(0)
}

/// The last varint of the number as a number of 32 bits, which are its low ones. It takes no memory.
pub fn last_uint32(list: &[Field<'_>], number: u32) -> u32
    ensures { result ≡ last_uint32 number (views list.now) }
{
    (last_uint(list, number) % (1 << 32)) as u32
}

/// The last varint of the number as an int64, which is its two's complement. It takes no memory.
pub fn last_int64(list: &[Field<'_>], number: u32) -> i64
    ensures { result ≡ last_int64 number (views list.now) }
{
    last_uint(list, number).cast_signed()
}

/// Whether the last varint of the number isn't 0. It takes no memory.
pub fn last_bool(list: &[Field<'_>], number: u32) -> bool
    ensures { result ≡ last_bool number (views list.now) }
{
    last_uint(list, number) != 0
}

/// The last bytes of the number, empty where there are none. It takes no memory.
#[tactic(auto, unfolding(crate::specs::FieldValues::last_bytes, crate::specs::FieldValues::repeated))]
pub fn last_bytes<'a>(list: &[Field<'a>], number: u32) -> &'a [u8]
    ensures { result.now ≡ last_bytes number (views list.now) }
{
    let mut last: &'a [u8] = &[];
    for field in list {
        if let Some(bytes) = field.bytes(number) {
            last = bytes;
        }
    }
    last
}

/// All bytes of the number, each as it stands.
#[tactic(auto, unfolding(crate::specs::FieldValues::repeated))]
pub fn repeated<'a>(alloc: Global, list: &[Field<'a>], number: u32) -> Result<Vec<&'a [u8]>, Memory>
    ensures { IfOk result (λ v. map now v.items ≡ repeated number (views list.now)) }
{
    let mut all = Vec::new(alloc);
    for field in list {
        if let Some(bytes) = field.bytes(number) {
            all.push(bytes)?;
        }
    }
    Ok(all)
}

/// Copies of all bytes of the number, each as it stands.
#[tactic(auto, unfolding(crate::specs::FieldValues::repeated))]
pub fn repeated_copies(
    alloc: Global,
    list: &[Field<'_>],
    number: u32,
) -> Result<List<List<u8>>, Memory>
    ensures { IfOk result (λ l. l ≡ repeated number (views list.now)) }
{
    let mut all = List::new(alloc);
    for field in list {
        if let Some(bytes) = field.bytes(number) {
            let mut copy = List::new(alloc);
            copy.extend_from_slice(bytes)?;
            all.push(copy)?;
        }
    }
    Ok(all)
}

/// The bytes of the singular message of the number: those of its occurrences one after another. None
/// exactly where it doesn't occur.
#[tactic(auto, unfolding(crate::specs::FieldValues::joined, crate::specs::FieldValues::repeated))]
pub fn join_occurrences(
    alloc: Global,
    list: &[Field<'_>],
    number: u32,
) -> Result<Option<List<u8>>, Memory>
    ensures bytes { IfOk result (λ b. b ≡ joined number (views list.now)) }
    ensures within { IfOk result (λ b. IfSome b (λ bytes. length bytes ≤ delimited_len (views list.now))) }
{
    let mut all = None;
    for field in list {
        if let Some(bytes) = field.bytes(number) {
            all = Some(append(alloc, all, bytes)?);
        }
    }
    Ok(all)
}

/// The bytes so far, with these after them.
fn append(alloc: Global, bytes: Option<List<u8>>, more: &[u8]) -> Result<List<u8>, Memory>
    ensures { IfOk result (λ b. b ≡ unwrap_or bytes [] ++ more.now) }
{
    let mut all = bytes.unwrap_or(List::new(alloc));
    all.extend_from_slice(more)?;
    Ok(all)
}

/// The bytes of the field at a place as text. `At` comes exactly where they aren't UTF-8.
fn as_text(at: u32, bytes: &[u8]) -> Result<&str, WireFault>
    ensures { Gives (λ t. Some t.now) result (as_text at (Some bytes.now)) }
{
    match str::from_utf8(bytes) {
        Ok(text) => Ok(text),
        Err(_) => Err(WireFault::At(at)),
    }
}

/// The last text of the number, empty where there is none. `At` comes exactly where an occurrence isn't
/// UTF-8, and is the place of the first of these.
#[tactic(auto, unfolding(crate::specs::FieldValues::last_text, crate::specs::FieldValues::texts, crate::specs::Reading::gathered))]
pub fn last_text(alloc: Global, list: &[Field<'_>], number: u32) -> Result<Text, WireFault>
    ensures { Gives (λ t. t) result (last_text number (views list.now)) }
{
    let mut last = "";
    for field in list {
        if let Some(bytes) = field.bytes(number) {
            last = as_text(field.at, bytes)?;
        }
    }
    Ok(Text::from_str(alloc, last)?)
}

/// All texts of the number. `At` comes exactly where an occurrence isn't UTF-8, and is the place of the
/// first of these.
#[tactic(auto, unfolding(crate::specs::FieldValues::texts, crate::specs::Reading::gathered))]
pub fn texts(alloc: Global, list: &[Field<'_>], number: u32) -> Result<List<Text>, WireFault>
    ensures { Gives (λ l. l) result (texts number (views list.now)) }
{
    let mut all = List::new(alloc);
    for field in list {
        if let Some(bytes) = field.bytes(number) {
            let text = Text::from_str(alloc, as_text(field.at, bytes)?)?;
            all.push(text)?;
        }
    }
    Ok(all)
}

/// The number among these that occurs last, whatever the wire type of its field. None exactly where none
/// occurs. It takes no memory.
#[tactic(auto, unfolding(crate::specs::FieldValues::oneof_of))]
pub fn oneof_of(list: &[Field<'_>], numbers: &[u32]) -> Option<u32>
    ensures { result ≡ oneof_of numbers.now (views list.now) }
{
    let mut last = None;
    for field in list {
        if numbers.contains(&field.number) {
            last = Some(field.number);
        }
    }
    last
}

/// The fields that are occurrences of the members of a oneof, by number and wire type. A oneof is read
/// from these: `oneof_of` says which member is set, and `last_run` where its value stands.
#[tactic(auto, unfolding(crate::specs::FieldValues::occurrences))]
pub fn occurrences<'a>(
    alloc: Global,
    list: &[Field<'a>],
    members: &[Member],
) -> Result<Vec<Field<'a>>, Memory>
    ensures fields { IfOk result (λ v. views v.items ≡ occurrences members.now (views list.now)) }
    ensures within { IfOk result (λ v. delimited_len (views v.items) ≤ delimited_len (views list.now)) }
{
    let mut all = Vec::new(alloc);
    for field in list {
        if is_of_any(field, members) {
            all.push(*field)?;
        }
    }
    Ok(all)
}

/// Whether the field is an occurrence of one of the members.
fn is_of_any(field: &Field<'_>, members: &[Member]) -> bool
    ensures { result ≡ list_any (is_of (view field.now)) members.now }
{
    members.iter().any(|member| field.is_of(member))
}

/// The fields after the last one of another number. In the occurrences of the members of a oneof these
/// are the occurrences of the member that is set after those of any other one. It takes no memory.
pub fn last_run<'b, 'a>(list: &'b [Field<'a>], number: u32) -> &'b [Field<'a>]
    ensures fields { views result.now ≡ last_run number (views list.now) }
    ensures within { delimited_len (views result.now) ≤ delimited_len (views list.now) }
{
    let mut start = list.len();
    while start > 0 && list[start - 1].number == number {
        start -= 1;
    }
    &list[start..]
}
