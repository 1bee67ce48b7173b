//! The entries of a report as they stand there: whose turn each of them is, and which line of the session it plays.
#![tactic(auto)]

pub mod entry_turns;
pub mod found_laws;
pub mod misplaced_turns;

pub use entry_turns::{EntryTurn, EntryTurns, Found};
pub use found_laws::found_in_turn;
pub use misplaced_turns::Misplaced;
