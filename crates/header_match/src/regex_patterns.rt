//! Patterns that `regex` builds.
ghost use Rattle.std.specs.Prelude.{◌≡◌, [], Contains, IfOk, IsErr, IsTrue, ◌↔◌};
ghost use Rattle.header_match.specs.Refused.{after_fault, refused_after};

use crate::pattern::Pattern;
use crate::patterns::{PatternFault, Patterns};
use std::alloc::Global;
use xc_base::{List, Memory, Same, Text};

/// Builds patterns with `regex`. A text is refused where `regex` refuses it or its anchored form.
#[derive(Drop)]
pub struct RegexPatterns {
    alloc: Global,
    refused: List<Text>,
}

impl RegexPatterns {
    /// It has refused nothing yet. It takes no memory.
    pub fn new(alloc: Global) -> RegexPatterns
        ensures { ⟦<RegexPatterns as Patterns>⟧.refused result ≡ [] }
    {
        RegexPatterns {
            alloc,
            refused: List::new(alloc),
        }
    }

    /// The texts that it refused, in their order.
    pub fn refused(&self) -> &[Text]
        ensures { result.now ≡ ⟦<RegexPatterns as Patterns>⟧.refused self.now }
    {
        self.refused.as_slice()
    }

    /// The answer for a text that is refused, which is added to the refused ones.
    fn refuse(&mut self, text: &str) -> PatternFault
        ensures { ⟦<RegexPatterns as Patterns>⟧.refused self.new ≡ after_fault (⟦<RegexPatterns as Patterns>⟧.refused self.old) text.now result }
    {
        let Ok(text) = Text::from_str(self.alloc, text) else {
            return PatternFault::Memory;
        };
        match self.refused.push(text) {
            Ok(()) => PatternFault::Refused,
            Err(_) => PatternFault::Memory,
        }
    }
}

impl Patterns for RegexPatterns {
    ghost refused = { λ p. p.refused };

    fn build(&mut self, text: &str) -> Result<Pattern, PatternFault> {
        match Pattern::build(self.alloc, text) {
            Ok(pattern) => Ok(pattern),
            Err(PatternFault::Refused) => Err(self.refuse(text)),
            Err(PatternFault::Memory) => Err(PatternFault::Memory),
        }
    }
}

/// Refuses the texts of a list, and hands the others to `regex`.
#[derive(Drop)]
pub struct CountedPatterns {
    pub refusing: List<Text>,
    pub others: RegexPatterns,
}

impl CountedPatterns {
    /// It has refused nothing yet. It takes no memory.
    pub fn new(alloc: Global, refusing: List<Text>) -> CountedPatterns
        ensures refused { ⟦<CountedPatterns as Patterns>⟧.refused result ≡ [] }
        ensures refusing { result.refusing ≡ refusing }
    {
        CountedPatterns {
            refusing,
            others: RegexPatterns::new(alloc),
        }
    }
}

impl Patterns for CountedPatterns {
    ghost refused = { λ p. ⟦<RegexPatterns as Patterns>⟧.refused p.others };

    fn build(&mut self, text: &str) -> Result<Pattern, PatternFault>
        ensures built { IfOk result (λ p. p ≡ text.now) }
        ensures refused { ⟦<RegexPatterns as Patterns>⟧.refused self.new.others ≡ refused_after (⟦<RegexPatterns as Patterns>⟧.refused self.old.others) text.now result }
        ensures listed { Contains self.old.refusing text.now → IsErr result }
        ensures refusing { self.new.refusing ≡ self.old.refusing }
    {
        if has_text(self.refusing.as_slice(), text) {
            return Err(self.others.refuse(text));
        }
        self.others.build(text)
    }
}

/// Whether a text stands in a list.
fn has_text(texts: &[Text], text: &str) -> bool
    ensures { IsTrue result ↔ Contains texts.now text.now }
{
    texts.iter().any(|t| t.as_str() == text)
}
