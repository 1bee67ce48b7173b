//! The pattern texts of one response.
ghost use Rattle.std.specs.Prelude.{◌≡◌, ◌++◌, ◌∷◌, [], OnOk, OnErr};
ghost use Rattle.check_steps.specs.Asking.{Agrees, AsksUntil, Gains, IsKept, Knows, TellsOver, answer_to, ending, no_texts, pattern_of, refusing};

use crate::check_fault::{Fault, Stop};
use header_match::{Pattern, PatternFault, Patterns};
use std::alloc::Global;
use std::collections::BTreeMap;
use std::marker::Model;
use xc_base::{List, Memory, Text};

/// The pattern texts that were asked in one response: the patterns that were built, each with its text, and
/// the texts that were refused. No text stands in both, and none is asked again.
#[derive(Drop)]
pub struct Asked {
    // None where the text was refused
    answers: BTreeMap<Text, Option<Pattern>>,
    refused: Vec<Text>,
}

impl Model for Asked {
    ghost use Rattle.check_steps.specs.Asking.{IsKept, Texts};

    ghost Value = { Texts };

    ghost view = { λ a. record { answers = a.answers.entries; refused = a.refused.items } };

    ghost invariant = { λ a. IsKept record { answers = a.answers.entries; refused = a.refused.items } };
}

impl Asked {
    /// Nothing was asked yet. It takes no memory.
    pub fn new(alloc: Global) -> Asked
        ensures { result ≡ no_texts }
    {
        Asked {
            answers: BTreeMap::new(alloc),
            refused: Vec::new(alloc),
        }
    }

    /// The texts that were refused, in the order in which they were asked, to keep.
    pub fn into_refused(self) -> List<Text>
        ensures { result ≡ self.refused }
    {
        List::from_vec(self.refused)
    }

    /// The texts that were refused, in the order in which they were asked.
    pub fn refused(&self) -> &[Text]
        ensures { result.now ≡ self.now.refused }
    {
        self.refused.as_slice()
    }

    /// That a text is refused agrees with all that was answered. It does nothing.
    pub fn agree(&self)
        ensures { Agrees (refusing self.now) self.now }
    {
        let _ = &self.answers;
    }

    /// The refused texts are those whose answer says so. It does nothing.
    fn fit(&self)
        ensures { IsKept self.now }
    {
        let _ = &self.answers;
    }

    /// What is known of a text.
    fn answer_for(&self, text: &Text) -> Result<Option<Pattern>, Fault>
        ensures { Knows self.now text.now result }
    {
        match self.answers.get(text) {
            None => Ok(None),
            Some(None) => {
                let text = text.clone()?;
                Err(Fault::Stopped(Stop::Refused(text)))
            }
            Some(Some(pattern)) => {
                let pattern = pattern.clone()?;
                Ok(Some(pattern))
            }
        }
    }

    /// Keeps the pattern of a text that wasn't asked before.
    fn keep(&mut self, text: &Text, pattern: &Pattern) -> Result<(), Memory>
        requires text { pattern.now ≡ text.now }
        requires new { answer_to self.old text.now ≡ None }
        ensures gains { OnOk result (Gains self.old self.new text.now (Some text.now)) }
        ensures refused { OnOk result (self.new.refused ≡ self.old.refused) }
        ensures err { OnErr result (self.new ≡ self.old) }
    {
        let text = text.clone()?;
        let pattern = pattern.clone()?;
        self.answers.insert(text, Some(pattern))?;
        Ok(())
    }

    /// Keeps a text that is refused and wasn't asked before.
    pub fn refuse(&mut self, text: &Text) -> Result<(), Memory>
        requires { answer_to self.old text.now ≡ None }
        ensures gains { OnOk result (Gains self.old self.new text.now None) }
        ensures refused { OnOk result (self.new.refused ≡ self.old.refused ++ text.now ∷ []) }
        ensures err { OnErr result (self.new ≡ self.old) }
    {
        let listed = text.clone()?;
        let text = text.clone()?;
        self.refused.reserve(1)?;
        self.answers.insert(text, None)?;
        self.refused.push_reserved(listed);
        Ok(())
    }

    /// Asks for the pattern of a text that wasn't asked before.
    fn ask<P: Patterns>(&mut self, patterns: &mut P, text: &Text) -> Result<Pattern, Fault>
        requires { answer_to self.old text.now ≡ None }
        ensures value { TellsOver self.new result (λ refuses. pattern_of refuses text.now) }
        ensures asked { AsksUntil self.old self.new (P.refused patterns.old) (P.refused patterns.new) (ending result) }
    {
        self.fit();
        match patterns.build(text.as_str()) {
            Ok(pattern) => {
                self.keep(text, &pattern)?;
                Ok(pattern)
            }
            Err(PatternFault::Refused) => {
                let stop = text.clone()?;
                self.refuse(text)?;
                Err(Fault::Stopped(Stop::Refused(stop)))
            }
            Err(PatternFault::Memory) => Err(Fault::Memory),
        }
    }

    /// The pattern of a text, which is asked for where it wasn't before.
    pub fn pattern<P: Patterns>(&mut self, patterns: &mut P, text: &Text) -> Result<Pattern, Fault>
        ensures value { TellsOver self.new result (λ refuses. pattern_of refuses text.now) }
        ensures asked { AsksUntil self.old self.new (P.refused patterns.old) (P.refused patterns.new) (ending result) }
    {
        match self.answer_for(text)? {
            Some(pattern) => Ok(pattern),
            None => self.ask(patterns, text),
        }
    }
}
