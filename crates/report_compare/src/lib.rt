//! A report beside what was played of its session: whether it is that text, and else its first mistake.
#![tactic(auto)]

pub mod mistakes;
pub mod report_comparing;
pub mod text_differences;

pub use mistakes::{Difference, Mistake, Why};
pub use report_comparing::{PlayedPart, compare, compare_until};
