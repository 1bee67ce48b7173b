//! Values by keys, as a table in the order of keys that is made once and read often.
#![tactic(auto)]

pub mod key_table;

pub use key_table::KeyTable;
