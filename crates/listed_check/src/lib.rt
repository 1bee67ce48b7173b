//! Responses that are read and checked where the refused pattern texts are given (this project's own): what they come to is
//! decided by these texts, and the builder of patterns is asked for others alone.
#![tactic(auto)]

pub mod listed_laws;
pub mod listed_preparation;
pub mod listed_resources;
pub mod listed_texts;
pub mod stop_texts;

pub use listed_laws::one_prepared;
pub use listed_preparation::{ListedAnswer, prepare_listed};
