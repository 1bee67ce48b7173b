//! Tests of a text.
ghost use Rattle.std.specs.Prelude.{◌≡◌, option_map};
ghost use Rattle.proto_route.specs.declared.string_matcher.RawStringMatcherOne.TheVariants.{SafeRegex};

use proto_wire::{
    Member, Message, WireFault, fields, if_set, last_bool, last_text, occurrences, oneof_of,
    read_member,
};
use std::alloc::Global;
use xc_base::Text;

/// A RegexMatcher.
#[derive(Drop)]
pub struct RawRegexMatcher {
    /// The text of a pattern.
    pub regex: Text,
}

/// A test of a text.
#[derive(Drop)]
pub enum RawStringMatcherOne {
    /// It is this text.
    Exact(Text),
    /// It begins with this text.
    Prefix(Text),
    /// It ends with this text.
    Suffix(Text),
    /// The pattern matches it from its beginning to its end.
    SafeRegex(RawRegexMatcher),
    /// It contains this text.
    Contains(Text),
}

/// A StringMatcher.
#[derive(Drop)]
pub struct RawStringMatcher {
    /// The test that is set, if one is.
    pub one: Option<RawStringMatcherOne>,
    /// Whether ASCII letters are compared without regard to their case.
    pub ignore_case: bool,
}

impl Message for RawRegexMatcher {
    ghost use Rattle.proto_route.specs.StringMatcher.{regex_matcher_of};

    ghost reading = { regex_matcher_of };

    #[tactic(auto, unfolding(crate::specs::StringMatcher::regex_matcher_of))]
    fn read(alloc: Global, bytes: &[u8]) -> Result<RawRegexMatcher, WireFault> {
        let list = fields(alloc, bytes)?;
        let regex = last_text(alloc, &list, 2)?;
        Ok(RawRegexMatcher { regex })
    }
}

/// The test by the pattern.
fn regex_test(regex: Option<RawRegexMatcher>) -> Option<RawStringMatcherOne>
    ensures { result ≡ option_map SafeRegex regex }
{
    regex.map(RawStringMatcherOne::SafeRegex)
}

impl Message for RawStringMatcher {
    ghost use Rattle.proto_route.specs.StringMatcher.{string_matcher_of};

    ghost reading = { string_matcher_of };

    #[tactic(auto, unfolding(crate::specs::StringMatcher::string_matcher_of))]
    fn read(alloc: Global, bytes: &[u8]) -> Result<RawStringMatcher, WireFault> {
        let list = fields(alloc, bytes)?;
        let tests = occurrences(
            alloc,
            &list,
            &[
                Member::Bytes(1),
                Member::Bytes(2),
                Member::Bytes(3),
                Member::Bytes(5),
                Member::Bytes(7),
            ],
        )?;
        let set = oneof_of(&tests, &[1, 2, 3, 5, 7]);
        let exact = last_text(alloc, &list, 1)?;
        let prefix = last_text(alloc, &list, 2)?;
        let suffix = last_text(alloc, &list, 3)?;
        let safe_regex = read_member::<RawRegexMatcher>(alloc, &tests, 5)?;
        let contains = last_text(alloc, &list, 7)?;
        let one = if_set(set, 1, RawStringMatcherOne::Exact(exact))
            .or(if_set(set, 2, RawStringMatcherOne::Prefix(prefix)))
            .or(if_set(set, 3, RawStringMatcherOne::Suffix(suffix)))
            .or(regex_test(safe_regex))
            .or(if_set(set, 7, RawStringMatcherOne::Contains(contains)));
        Ok(RawStringMatcher {
            one,
            ignore_case: last_bool(&list, 6),
        })
    }
}
