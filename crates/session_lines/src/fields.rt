//! The header fields of a call.
ghost use Rattle.std.specs.Prelude.{◌≡◌};
ghost use Rattle.std.specs.List.{list_all};
ghost use Rattle.std.specs.Option.{ok_or};
ghost use Rattle.session_lines.specs.Works.{GivesLine};
ghost use Rattle.session_lines.specs.WordValues.{decoded, field_in, fields_in, is_name, is_name_byte};
ghost use Rattle.session_lines.specs.SessionViews.{words_in};
ghost use Rattle.session_lines.specs.declared.cause.Cause.TheVariants as cause;

use crate::cause::{Cause, LineFault};
use crate::line_texts::cut_at;
use crate::words::Words;
use percent_encoding::{DecodeError, percent_decode_str};
use std::alloc::Global;
use std::borrow::CowStr;
use xc_base::{Header, List, Text};

/// The most header fields of a call.
const MOST: usize = 64;

/// Whether a byte may stand in the name of a field.
#[tactic(auto, unfolding(crate::specs::WordValues::is_name_byte))]
fn is_name_byte(b: u8) -> bool
    ensures { result ≡ is_name_byte b }
{
    matches!(b, b'a'..=b'z' | b'0'..=b'9' | b'-' | b'_' | b'.')
}

/// Whether each byte may stand in the name of a field.
fn all_name_bytes(name: &[u8]) -> bool
    ensures { result ≡ list_all is_name_byte name.now }
{
    name.iter().all(|b| is_name_byte(*b))
}

/// Whether it may be the name of a field.
fn is_name(name: &str) -> bool
    ensures { result ≡ is_name name.now }
{
    name.len() != 0 && all_name_bytes(name.as_bytes())
}

/// The text that a value decodes to.
#[tactic(auto, unfolding(crate::specs::WordValues::decoded))]
fn decoded(alloc: Global, value: &str) -> Result<Text, LineFault>
    ensures { GivesLine (λ text. text) result (ok_or (decoded value.now) cause.Field) }
{
    match percent_decode_str(value).decode_utf8(alloc) {
        Ok(CowStr::Borrowed(text)) => Ok(Text::from_str(alloc, text)?),
        Ok(CowStr::Owned(text)) => Ok(Text::from_string(alloc, text)?),
        Err(DecodeError::OutOfMemory) => Err(LineFault::Memory),
        Err(DecodeError::Utf8(_)) => Err(LineFault::Because(Cause::Field)),
    }
}

/// A name, `=` and a value.
#[tactic(auto, unfolding(crate::specs::WordValues::field_in))]
fn field_in(alloc: Global, word: &str) -> Result<Header, LineFault>
    ensures { GivesLine (λ field. field) result (ok_or (field_in word.now) cause.Field) }
{
    let Some((name, value)) = cut_at('=', word) else {
        return Err(LineFault::Because(Cause::Field));
    };
    let value = decoded(alloc, value)?;
    if !is_name(name) {
        return Err(LineFault::Because(Cause::Field));
    }
    let name = Text::from_str(alloc, name)?;
    Ok(Header { name, value })
}

/// The header fields of the words, at most 64.
pub fn fields_in(alloc: Global, words: Words<'_>) -> Result<List<Header>, LineFault>
    ensures { GivesLine (λ fields. fields) result (ok_or (fields_in (words_in words.entry)) cause.Field) }
{
    let mut fields = List::new(alloc);
    let mut rest = words;
    while let Some((word, after)) = rest.split_first() {
        if fields.len() == MOST {
            return Err(LineFault::Because(Cause::Field));
        }
        fields.push(field_in(alloc, word)?)?;
        rest = after;
    }
    Ok(fields)
}
