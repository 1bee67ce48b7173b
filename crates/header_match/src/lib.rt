//! Header rules of routes, and the patterns by which texts are matched.
#![tactic(auto)]

pub mod headers;
pub mod pattern;
pub mod patterns;
pub mod regex_patterns;
pub mod rule;
pub mod texts;

pub use headers::header_met;
pub use pattern::Pattern;
pub use patterns::{PatternFault, Patterns};
pub use regex_patterns::{CountedPatterns, RegexPatterns};
pub use rule::{HeaderRule, HeaderTest, TextTest};
