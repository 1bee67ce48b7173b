//! Legal histories of a session, and their reports: right histories in which each actor plays what the session
//! lists for it, and the text that such a history has.
#![tactic(auto)]

pub mod legal_laws;

pub use legal_laws::few_entries;
