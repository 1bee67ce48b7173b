//! Whether a call meets a header rule.
ghost use Rattle.std.specs.Prelude.{◌≡◌, ◌==◌, ◌&&◌, not, int_lt, slice_index, [], ◌∷◌, ◌++◌, if◌then◌else◌, true, position, option_map, IfOk, OnOk, string_bytes};
ghost use Rattle.std.specs.List.{join_with_byte};
ghost use Rattle.header_match.specs.Texts.{is_same};
ghost use Rattle.header_match.specs.Headers.{header_met, test_met, value_met, no_case_met, is_in_range, values_of};

use crate::rule::{HeaderRule, HeaderTest, TextTest};
use crate::texts::{begins_with, contains, ends_with, is_same};
use std::alloc::Global;
use xc_base::{Call, Header, Memory};

/// Whether a call meets a header rule (gRFC A28). Names are compared without ASCII case, several values
/// of one name are one with a comma between each two, a header whose name ends with `-bin` is absent,
/// and `content-type` is `application/grpc` for all calls. It takes memory only where several values
/// are joined or a pattern runs.
pub fn header_met(alloc: Global, rule: &HeaderRule, call: &Call) -> Result<bool, Memory>
    ensures { IfOk result (λ met. met ≡ header_met rule.now call.now) }
{
    let name = rule.name.as_str().as_bytes();
    if ends_with(name, b"-bin", true) {
        return test_met(rule, None);
    }
    if is_same(name, b"content-type", true) {
        return test_met(rule, Some("application/grpc"));
    }
    let headers = call.headers.as_slice();
    let Some(first) = place_of(name, headers) else {
        return test_met(rule, None);
    };
    let value = headers[first].value.as_str();
    let (_, rest) = headers.split_at(first + 1);
    match place_of(name, rest) {
        None => test_met(rule, Some(value)),
        Some(_) => {
            let joined = join_values(alloc, value, name, rest)?;
            test_met(rule, Some(joined.as_str()))
        }
    }
}

/// The place of the first header of a name, from 0.
fn place_of(name: &[u8], headers: &[Header]) -> Option<usize>
    ensures { result ≡ position (λ h. is_same true h.name name.now) headers.now }
{
    headers.iter().position(|header| is_same(header.name.as_str().as_bytes(), name, true))
}

/// Whether the value of a header, if it is there, meets the test of a rule.
fn test_met(rule: &HeaderRule, value: Option<&str>) -> Result<bool, Memory>
    ensures { IfOk result (λ met. met ≡ test_met rule.now.invert rule.now.test (option_map (λ v. v.now) value.entry)) }
{
    match (&rule.test, value) {
        (HeaderTest::Present(there), value) => Ok((*there == value.is_some()) != rule.invert),
        (_, None) => Ok(false),
        (test, Some(value)) => Ok(value_met(test, value)? != rule.invert),
    }
}

/// Whether a value meets a test, before any inversion.
fn value_met(test: &HeaderTest, value: &str) -> Result<bool, Memory>
    ensures { IfOk result (λ met. met ≡ value_met test.now value.now) }
{
    let bytes = value.as_bytes();
    match test {
        HeaderTest::Exact(text) => Ok(is_same(bytes, text.as_str().as_bytes(), false)),
        HeaderTest::Range { start, end } => Ok(is_in_range(*start, *end, value)),
        HeaderTest::Present(there) => Ok(*there),
        HeaderTest::Prefix(text) => Ok(begins_with(bytes, text.as_str().as_bytes(), false)),
        HeaderTest::Suffix(text) => Ok(ends_with(bytes, text.as_str().as_bytes(), false)),
        HeaderTest::Contains(text) => Ok(contains(bytes, text.as_str().as_bytes(), false)),
        HeaderTest::Pattern(pattern) => pattern.meets(value),
        HeaderTest::NoCase(test) => Ok(no_case_met(test, bytes)),
    }
}

/// Whether a value meets a test of text without ASCII case.
fn no_case_met(test: &TextTest, value: &[u8]) -> bool
    ensures { result ≡ no_case_met test.now value.now }
{
    match test {
        TextTest::Exact(text) => is_same(value, text.as_str().as_bytes(), true),
        TextTest::Prefix(text) => begins_with(value, text.as_str().as_bytes(), true),
        TextTest::Suffix(text) => ends_with(value, text.as_str().as_bytes(), true),
        TextTest::Contains(text) => contains(value, text.as_str().as_bytes(), true),
    }
}

/// Whether a text writes a number of the range: an optional `-` and decimal digits.
fn is_in_range(start: i64, end: i64, text: &str) -> bool
    ensures { result ≡ is_in_range start end text.now }
{
    if has_plus(text) {
        return false;
    }
    match text.parse::<i64>() {
        Ok(number) => is_between(start, end, number),
        Err(_) => false,
    }
}

/// Whether the text begins with a plus sign, which `parse` would take.
fn has_plus(text: &str) -> bool
    ensures { result ≡ (slice_index text.now 0 == 43) }
{
    text.starts_with('+')
}

/// Whether a number is at least `start` and below `end`.
fn is_between(start: i64, end: i64, number: i64) -> bool
    ensures { result ≡ (not (int_lt number start) && int_lt number end) }
{
    start <= number && number < end
}

/// A value, and after it those of the other headers of a name, with a comma before each.
fn join_values(alloc: Global, first: &str, name: &[u8], rest: &[Header]) -> Result<String, Memory>
    ensures { IfOk result (λ text. string_bytes text ≡ join_with_byte 44 (first.now ∷ values_of name.now rest.now)) }
{
    let mut text = String::from_str(alloc, first)?;
    for header in rest {
        add_value(&mut text, name, header)?;
    }
    Ok(text)
}

/// Adds the value of a header, after a comma, where the header has this name.
fn add_value(text: &mut String, name: &[u8], header: &Header) -> Result<(), Memory>
    ensures { OnOk result (string_bytes text.new ≡ string_bytes text.old ++ (if is_same true header.now.name name.now then 44 ∷ header.now.value else [])) }
{
    if is_same(header.name.as_str().as_bytes(), name, true) {
        text.push(',')?;
        text.push_str(header.value.as_str())?;
    }
    Ok(())
}
