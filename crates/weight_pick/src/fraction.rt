//! Fractions of calls, and the drop rules that are made of them.
ghost use Rattle.std.specs.Prelude.{IsTrue};
ghost use Rattle.weight_pick.specs.Denominators.{is_denominator};

use xc_base::{Same, Text};

/// A fraction of calls: `n` of every `of`, which is 100, 10,000 or 1,000,000 (Envoy's
/// `FractionalPercent`). `n` may be more than `of`.
#[derive(Clone, Copy, Debug, PartialEq, Eq)]
pub struct Fraction {
    pub n: u32,
    pub of: u32,
    pub ghost known: { IsTrue (is_denominator of) },
}

/// A rule that drops a fraction of the calls, and the category under which the drops are told (Envoy's
/// `DropOverload`).
#[derive(Clone, Debug, Drop, PartialEq, Eq)]
pub struct DropRule {
    pub category: Text,
    pub fraction: Fraction,
}

impl Same for Fraction {
    fn same(&self, other: &Fraction) -> bool {
        self.n == other.n && self.of == other.of
    }
}

impl Same for DropRule {
    fn same(&self, other: &DropRule) -> bool {
        self.category.same(&other.category) && self.fraction.same(&other.fraction)
    }
}
