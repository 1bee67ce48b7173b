//! The header rules of a route.
use crate::pattern::Pattern;
use xc_base::{Same, Text};

/// A rule on the header of a name (Envoy's `HeaderMatcher`). Where `invert` is true, a header that is
/// there must fail the test.
#[derive(Debug, Drop, PartialEq, Eq)]
pub struct HeaderRule {
    pub name: Text,
    pub test: HeaderTest,
    pub invert: bool,
}

/// A test of a header's value, by its bytes.
#[derive(Debug, Drop, PartialEq, Eq)]
pub enum HeaderTest {
    Exact(Text),
    /// A decimal number of at least `start` and below `end`.
    Range { start: i64, end: i64 },
    /// Whether the header is there: it has to be where this is true, and must not be where it is false.
    Present(bool),
    Prefix(Text),
    Suffix(Text),
    Contains(Text),
    Pattern(Pattern),
    /// The test in it, with ASCII letters compared without case.
    NoCase(TextTest),
}

/// A test of a text without ASCII case.
#[derive(Debug, Drop, PartialEq, Eq)]
pub enum TextTest {
    Exact(Text),
    Prefix(Text),
    Suffix(Text),
    Contains(Text),
}

impl Same for HeaderRule {
    fn same(&self, other: &HeaderRule) -> bool {
        self.invert == other.invert && self.name.same(&other.name) && self.test.same(&other.test)
    }
}

impl Same for HeaderTest {
    fn same(&self, other: &HeaderTest) -> bool {
        match (self, other) {
            (HeaderTest::Exact(a), HeaderTest::Exact(b)) => a.same(b),
            (
                HeaderTest::Range { start, end },
                HeaderTest::Range {
                    start: other_start,
                    end: other_end,
                },
            ) => *start == *other_start && *end == *other_end,
            (HeaderTest::Present(a), HeaderTest::Present(b)) => *a == *b,
            (HeaderTest::Prefix(a), HeaderTest::Prefix(b)) => a.same(b),
            (HeaderTest::Suffix(a), HeaderTest::Suffix(b)) => a.same(b),
            (HeaderTest::Contains(a), HeaderTest::Contains(b)) => a.same(b),
            (HeaderTest::Pattern(a), HeaderTest::Pattern(b)) => a.same(b),
            (HeaderTest::NoCase(a), HeaderTest::NoCase(b)) => a.same(b),
            _ => false,
        }
    }
}

impl Same for TextTest {
    fn same(&self, other: &TextTest) -> bool {
        match (self, other) {
            (TextTest::Exact(a), TextTest::Exact(b)) => a.same(b),
            (TextTest::Prefix(a), TextTest::Prefix(b)) => a.same(b),
            (TextTest::Suffix(a), TextTest::Suffix(b)) => a.same(b),
            (TextTest::Contains(a), TextTest::Contains(b)) => a.same(b),
            _ => false,
        }
    }
}
