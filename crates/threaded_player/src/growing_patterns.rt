//! A builder of patterns whose type says that the texts which it refused only grow.
ghost use Rattle.std.specs.Prelude.{◌≡◌};
ghost use Rattle.threaded_player.specs.ThreadedPlay.{HasGrown};

use header_match::{Pattern, PatternFault, Patterns};
use std::marker::{Brand, PhantomData};

/// Names a builder of patterns, and the texts that it had refused. It has no call: whoever calls a function that is generic
/// over it says there what it names.
pub(crate) trait Beginning {
    ghost use Rattle.std.specs.Prelude.{List, ℕ};

    /// The ghost name of the builder's reference.
    ghost name: { ℕ };

    /// The texts that the builder had refused.
    ghost told: { List (List ℕ) };
}

impl Beginning for Brand {
    ghost use Rattle.std.specs.Prelude.{[]};

    ghost name = { 0 };

    ghost told = { [] };
}

/// The builder that B names. It has refused the texts that B names, and perhaps more since then.
#[derive(Drop)]
pub(crate) struct Growing<'p, P: Patterns, B: Beginning> {
    pub(crate) patterns: &'p mut P,
    pub(crate) of: PhantomData<B>,
    ghost same: { patterns.ghost_name ≡ B.name },
    ghost grown: { HasGrown B.told (P.refused patterns.now) },
}

impl<'p, P: Patterns, B: Beginning> Patterns for Growing<'p, P, B> {
    ghost refused = { λ g. P.refused g.patterns.now };

    fn build(&mut self, text: &str) -> Result<Pattern, PatternFault> {
        self.patterns.build(text)
    }
}
