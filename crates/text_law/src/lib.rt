//! Laws of the report: a session and the text of its report have at most one legal history, and the patterns that are refused
//! are texts.
#![tactic(auto)]

pub mod text_laws;

pub use text_laws::{one_text, refused_are_texts};
