//! Where the children of a cluster are found.
ghost use Rattle.std.specs.Prelude.{◌≡◌, MatchOption, None, Some};

use xc_base::{List, Text};

/// A table of the children of aggregates.
pub trait Lookup {
    ghost use Rattle.aggregate_expand.specs.Chains.{Table};

    ghost table: { Self → Table };

    /// The children of an aggregate, and none for what is no aggregate.
    fn children(&self, name: &Text) -> Option<&List<Text>>
        ensures { MatchOption result (table self.now name.now ≡ None) (λ children. table self.now name.now ≡ Some children.now) };
}
