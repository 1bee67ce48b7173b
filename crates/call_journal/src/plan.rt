//! What the actors are to play.
use crate::event::DriverEvent;
use xc_base::{Call, CallId, List, Shared};

/// How far an actor has come.
#[derive(Clone, Copy, PartialEq, Eq)]
pub struct Count {
    /// How many of its listed events have ended.
    pub ended: u32,
    /// How many pins are up.
    pub pins: u32,
}

/// An event that an actor is to play.
#[derive(Drop)]
pub enum ListedEvent {
    Driver(DriverEvent),
    /// A pin, and then a hold where the pin got a snapshot.
    Start(Shared<Call>),
    Pick { call: CallId, word: u64 },
    Commit(CallId),
}

/// An event with its line, and the line that has to end before it.
#[derive(Drop)]
pub struct Listed {
    pub line: u32,
    pub after: Option<u32>,
    pub event: ListedEvent,
}

/// The listed events of each actor, the driver first.
#[derive(Drop)]
pub struct Plan {
    pub actors: List<List<Listed>>,
}
