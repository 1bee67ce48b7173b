//! Laws of the patterns that a report lists, each the clause of a function without a body.
ghost use Rattle.listed_patterns.specs.ListedLaws.{ListedOfEntry, ListedOfLines, PatternsEnd};

/// The lines of refused patterns, before what doesn't begin as such a line, list these patterns.
#[tactic(auto, using(crate::proofs::ListedProofs::listed_of_lines))]
pub fn listed_of_lines()
    ensures { ListedOfLines }
{}

/// The requests and the snapshot of an entry, before what doesn't begin with a space, don't begin as such a line.
#[tactic(auto, using(crate::proofs::ListedProofs::patterns_end))]
pub fn patterns_end()
    ensures { PatternsEnd }
{}

/// What a report has behind the first line of an entry lists the patterns that the entry refused.
#[tactic(auto, using(crate::proofs::ListedProofs::listed_of_entry))]
pub fn listed_of_entry()
    ensures { ListedOfEntry }
{}
