//! Entries of the journal.
use crate::event::{CallerEvent, DriverEvent};
use crate::reply::{CallerReply, DriverReply};
use xc_base::Shared;

/// An event with its answer.
#[derive(Drop)]
pub enum What {
    Driver {
        event: DriverEvent,
        /// It stands apart, so that an entry of a caller doesn't take its room.
        reply: Shared<DriverReply>,
    },
    Caller {
        event: CallerEvent,
        reply: CallerReply,
    },
}

/// One step: who made it, for which line of the session, and what happened.
#[derive(Drop)]
pub struct Entry {
    /// The driver is 0, callers are 1 to 16.
    pub actor: u16,
    /// The line's number, or 0 for the last sweep.
    pub line: u32,
    pub what: What,
}
