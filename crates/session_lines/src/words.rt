//! The words of a line.
ghost use Rattle.std.specs.Prelude.{◌≡◌, ◌∷◌, [], MatchOption};
ghost use Rattle.session_lines.specs.Forms.{gate_in};
ghost use Rattle.session_lines.specs.Lines.{second_of, words_of};
ghost use Rattle.session_lines.specs.SessionViews.{seen_gate, words_in};
ghost use Rattle.xds_name.specs.NameTexts.{seen};

use crate::line_texts::{after, cut_at};

/// The words of a line that aren't taken yet. They are slices of it.
#[derive(Clone, Copy)]
pub struct Words<'a> {
    rest: Option<&'a str>,
}

/// The first word of a line, and those after it.
fn first_of(line: &str) -> (&str, Words<'_>)
    ensures { words_of line.now ≡ result.0.now ∷ words_in result.1 }
{
    match cut_at(' ', line) {
        Some((word, rest)) => (word, Words { rest: Some(rest) }),
        None => (line, Words { rest: None }),
    }
}

impl<'a> Words<'a> {
    /// The words of a line.
    pub fn of(line: &'a str) -> Words<'a>
        ensures { words_in result ≡ words_of line.now }
    {
        Words { rest: Some(line) }
    }

    /// The first word, and those after it.
    pub fn split_first(self) -> Option<(&'a str, Words<'a>)>
        ensures { MatchOption result (words_in self.entry ≡ []) (λ p. words_in self.entry ≡ p.0.now ∷ words_in p.1) }
    {
        match self.rest {
            Some(rest) => Some(first_of(rest)),
            None => None,
        }
    }

    /// What follows the `@` of the first word, if it begins with one, and the other words.
    #[tactic(auto, unfolding(crate::specs::Forms::gate_in))]
    pub fn split_gate(self) -> (Option<&'a str>, Words<'a>)
        ensures { seen_gate result ≡ gate_in (words_in self.entry) }
    {
        let Some((first, rest)) = self.split_first() else {
            return (None, self);
        };
        match after("@", first) {
            Some(gate) => (Some(gate), rest),
            None => (None, self),
        }
    }

    /// The second of two words, of which this is the first.
    pub fn second(self, first: &str) -> Option<&'a str>
        ensures { seen result ≡ second_of first.now (words_in self.entry) }
    {
        let (word, rest) = self.split_first()?;
        let (second, rest) = rest.split_first()?;
        if rest.split_first().is_none() && word == first {
            Some(second)
        } else {
            None
        }
    }
}
