//! A pattern, which a text meets as a whole.
ghost use Rattle.std.specs.Prelude.{◌≡◌, ◌==◌, IfOk, string_bytes};
ghost use Rattle.std.specs.Cmp.{partial_equiv_from_equiv};
ghost use Rattle.std.specs.Cmp.Lexicographic.{pointwise, nat_list_eq_equiv};
ghost use Rattle.header_match.specs.Meets.{anchored, meets};

use crate::patterns::PatternFault;
use regex::Regex;
use std::alloc::Global;
use std::fmt;
use std::marker::Model;
use xc_base::{Memory, Same, Shared, Text};

/// A regular expression that was built, which contracts see as its text. It meets a text where its
/// anchored form matches all of it. Two patterns are equal where their texts are, and copies share
/// what was built.
#[derive(Drop)]
pub struct Pattern {
    alloc: Global,
    text: Text,
    regex: Shared<Regex>,
}

impl Model for Pattern {
    ghost use Rattle.std.specs.Prelude.{List, ℕ, ◌≡◌};
    ghost use Rattle.regex.specs.Strings.{regex_source, regex_config, IsReadFromSource};
    ghost use Rattle.regex.specs.Patterns.{default_config};
    ghost use Rattle.header_match.specs.Meets.{anchored};

    ghost Value = { List ℕ };

    ghost view = { λ p. p.text };

    ghost invariant = { λ p. (regex_source p.regex ≡ anchored p.text) × (regex_config p.regex ≡ default_config) × IsReadFromSource p.regex };
}

impl Pattern {
    /// The text that it was built from.
    pub fn as_str(&self) -> &str
        ensures { result.now ≡ self.now }
    {
        self.text.as_str()
    }

    /// Whether the pattern matches all of the text, and not a part of it alone. It takes memory to run.
    pub fn meets(&self, text: &str) -> Result<bool, Memory>
        ensures { IfOk result (λ met. met ≡ meets self.now text.now) }
    {
        let mut matcher = self.regex.get().matcher(self.alloc)?;
        Ok(matcher.is_match(text))
    }

    /// The pattern of a text, where `regex` accepts both the text and its anchored form.
    pub(crate) fn build(alloc: Global, text: &str) -> Result<Pattern, PatternFault>
        ensures { IfOk result (λ p. p ≡ text.now) }
    {
        Regex::new(alloc, text)?;
        let anchored = anchored_text(alloc, text)?;
        let regex = Regex::new(alloc, anchored.as_str())?;
        let regex = Shared::new(alloc, regex)?;
        let text = Text::from_str(alloc, text)?;
        Ok(Pattern { alloc, text, regex })
    }
}

/// The pattern from the start of a text to its end.
#[tactic(auto, unfolding(crate::specs::Meets::anchored))]
fn anchored_text(alloc: Global, text: &str) -> Result<String, Memory>
    ensures { IfOk result (λ s. string_bytes s ≡ anchored text.now) }
{
    format!(in alloc; "\\A(?:{text})\\z")
}

impl Clone for Pattern {
    ghost is_clone = { λ p q. q ≡ p };

    fn clone(&self) -> Result<Pattern, Memory> {
        Ok(Pattern {
            alloc: self.alloc,
            text: self.text.clone()?,
            regex: self.regex.share()?,
        })
    }
}

impl PartialEq for Pattern {
    ghost eq = { pointwise ◌==◌ };

    ghost laws = { partial_equiv_from_equiv nat_list_eq_equiv };

    fn eq(&self, other: &Pattern) -> bool {
        self.as_str() == other.as_str()
    }
}

impl Eq for Pattern {
    ghost laws = { nat_list_eq_equiv };
}

impl Same for Pattern {
    fn same(&self, other: &Pattern) -> bool {
        self.as_str() == other.as_str()
    }
}

impl fmt::Debug for Pattern {
    fn fmt<W: fmt::Write>(&self, f: &mut fmt::Formatter<W>) -> fmt::Result {
        let text = self.as_str();
        write!(f, "{text:?}")
    }
}
