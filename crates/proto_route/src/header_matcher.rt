//! Tests of a header.
ghost use Rattle.std.specs.Prelude.{◌≡◌, ◌<◌, ◌≤◌, ◌^◌, option_map, IfOk};
ghost use Rattle.proto_wire.specs.Reading.{Gives};
ghost use Rattle.proto_wire.specs.FieldValues.{delimited_len};
ghost use Rattle.proto_wire.specs.View.{views};
ghost use Rattle.proto_route.specs.HeaderMatcher.{header_test, header_tests};
ghost use Rattle.proto_route.specs.declared.header_matcher.RawHeaderMatcherOne.TheVariants.{RangeMatch, SafeRegexMatch, StringMatch};

use crate::string_matcher::{RawRegexMatcher, RawStringMatcher};
use proto_wire::{
    Field, Member, Message, WireFault, fields, if_set, last_bool, last_int64, last_text,
    occurrences, oneof_of, read_member,
};
use std::alloc::Global;
use xc_base::{Memory, Text};

/// An Int64Range: numbers from `start` up to `end`, which isn't in it.
#[derive(Clone, Copy)]
pub struct RawRange {
    /// The first number in the range.
    pub start: i64,
    /// The first number after the range.
    pub end: i64,
}

/// A test of a header's value.
#[derive(Drop)]
pub enum RawHeaderMatcherOne {
    /// The value is this text.
    ExactMatch(Text),
    /// The value is a decimal number in the range.
    RangeMatch(RawRange),
    /// Whether the header is there.
    PresentMatch(bool),
    /// The value begins with this text.
    PrefixMatch(Text),
    /// The value ends with this text.
    SuffixMatch(Text),
    /// The pattern matches the value from its beginning to its end.
    SafeRegexMatch(RawRegexMatcher),
    /// The value contains this text.
    ContainsMatch(Text),
    /// The value meets this test of a text.
    StringMatch(RawStringMatcher),
}

/// A HeaderMatcher (gRFC A28).
#[derive(Drop)]
pub struct RawHeaderMatcher {
    /// The name of the header.
    pub name: Text,
    /// The test that is set, if one is.
    pub one: Option<RawHeaderMatcherOne>,
    /// Whether a header that doesn't meet the test is meant.
    pub invert_match: bool,
}

impl Message for RawRange {
    ghost use Rattle.proto_route.specs.HeaderMatcher.{range_of};

    ghost reading = { range_of };

    #[tactic(auto, unfolding(crate::specs::HeaderMatcher::range_of))]
    fn read(alloc: Global, bytes: &[u8]) -> Result<RawRange, WireFault> {
        let list = fields(alloc, bytes)?;
        Ok(RawRange {
            start: last_int64(&list, 1),
            end: last_int64(&list, 2),
        })
    }
}

/// The test that a number lies in the range.
fn range_test(range: Option<RawRange>) -> Option<RawHeaderMatcherOne>
    ensures { result ≡ option_map RangeMatch range }
{
    range.map(RawHeaderMatcherOne::RangeMatch)
}

/// The test by the pattern.
fn regex_test(regex: Option<RawRegexMatcher>) -> Option<RawHeaderMatcherOne>
    ensures { result ≡ option_map SafeRegexMatch regex }
{
    regex.map(RawHeaderMatcherOne::SafeRegexMatch)
}

/// The test of the text.
fn string_test(string: Option<RawStringMatcher>) -> Option<RawHeaderMatcherOne>
    ensures { result ≡ option_map StringMatch string }
{
    string.map(RawHeaderMatcherOne::StringMatch)
}

/// The occurrences of the members that are tests.
fn test_occurrences<'a>(alloc: Global, list: &[Field<'a>]) -> Result<Vec<Field<'a>>, Memory>
    ensures fields { IfOk result (λ v. views v.items ≡ header_tests (views list.now)) }
    ensures within { IfOk result (λ v. delimited_len (views v.items) ≤ delimited_len (views list.now)) }
{
    occurrences(
        alloc,
        list,
        &[
            Member::Bytes(4),
            Member::Bytes(6),
            Member::Varint(7),
            Member::Bytes(9),
            Member::Bytes(10),
            Member::Bytes(11),
            Member::Bytes(12),
            Member::Bytes(13),
        ],
    )
}

/// The test that is set, if one is.
#[tactic(auto, unfolding(crate::specs::HeaderMatcher::header_test))]
fn header_test(alloc: Global, list: &[Field<'_>]) -> Result<Option<RawHeaderMatcherOne>, WireFault>
    requires { delimited_len (views list.now) < 2 ^ 32 }
    ensures { Gives (λ one. one) result (header_test (views list.now)) }
{
    let tests = test_occurrences(alloc, list)?;
    let set = oneof_of(&tests, &[4, 6, 7, 9, 10, 11, 12, 13]);
    let exact = last_text(alloc, list, 4)?;
    let range = read_member::<RawRange>(alloc, &tests, 6)?;
    let present = last_bool(list, 7);
    let prefix = last_text(alloc, list, 9)?;
    let suffix = last_text(alloc, list, 10)?;
    let regex = read_member::<RawRegexMatcher>(alloc, &tests, 11)?;
    let contains = last_text(alloc, list, 12)?;
    let string = read_member::<RawStringMatcher>(alloc, &tests, 13)?;
    Ok(
        if_set(set, 4, RawHeaderMatcherOne::ExactMatch(exact))
            .or(range_test(range))
            .or(if_set(set, 7, RawHeaderMatcherOne::PresentMatch(present)))
            .or(if_set(set, 9, RawHeaderMatcherOne::PrefixMatch(prefix)))
            .or(if_set(set, 10, RawHeaderMatcherOne::SuffixMatch(suffix)))
            .or(regex_test(regex))
            .or(if_set(set, 12, RawHeaderMatcherOne::ContainsMatch(contains)))
            .or(string_test(string)),
    )
}

impl Message for RawHeaderMatcher {
    ghost use Rattle.proto_route.specs.HeaderMatcher.{header_matcher_of};

    ghost reading = { header_matcher_of };

    #[tactic(auto, unfolding(crate::specs::HeaderMatcher::header_matcher_of))]
    fn read(alloc: Global, bytes: &[u8]) -> Result<RawHeaderMatcher, WireFault> {
        let list = fields(alloc, bytes)?;
        let name = last_text(alloc, &list, 1)?;
        let one = header_test(alloc, &list)?;
        Ok(RawHeaderMatcher {
            name,
            one,
            invert_match: last_bool(&list, 8),
        })
    }
}
