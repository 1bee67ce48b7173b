//! What tests of paths say of a path's length.
ghost use Rattle.std.specs.Prelude.{◌≡◌};
ghost use Rattle.xds_config.specs.PathLengths.{length_met, length_test};

use crate::route_values::PathTest;

/// What a test of a path says of the path's length, in bytes.
#[derive(Clone, Copy, Debug, PartialEq, Eq)]
pub enum LengthTest {
    /// The path has at least so many.
    From(usize),
    /// The path has so many.
    Exactly(usize),
}

impl LengthTest {
    /// Whether a path of so many bytes may meet the test.
    #[inline(always)]
    pub fn is_met(self, length: usize) -> bool
        ensures { result ≡ length_met self length }
    {
        match self {
            LengthTest::From(least) => least <= length,
            LengthTest::Exactly(same) => same == length,
        }
    }
}

/// What a test of a path says of the path's length.
pub fn length_test(test: &PathTest) -> LengthTest
    ensures { result ≡ length_test test.now }
{
    match test {
        PathTest::Prefix { text, .. } => LengthTest::From(text.len()),
        PathTest::Whole { text, .. } => LengthTest::Exactly(text.len()),
        PathTest::Pattern(_) => LengthTest::From(0),
    }
}
