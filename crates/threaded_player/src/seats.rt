//! Where the lanes of actors are while no thread plays for them.
use closed_book::{Job, Lane, Stop};
use std::mem;
use std::sync::{Mutex, Wait};

/// Where a lane is.
#[derive(Drop)]
enum Seated<J: Job> {
    /// It waits for its thread.
    Waiting(Lane<J>),
    /// No thread could be started for it.
    Staying(Lane<J>),
    /// A thread has it.
    Away,
    /// A thread brought it back, and all was played.
    Back(Lane<J>),
    /// A thread stopped before all was played.
    Stopped(Stop),
}

/// The place of one actor's lane, under a lock.
#[derive(Drop)]
pub(crate) struct Seat<J: Job> {
    seated: Mutex<Seated<J>>,
}

impl<J: Job> Seat<J> {
    /// A seat in which a lane waits for its thread.
    pub(crate) fn new(lane: Lane<J>) -> Seat<J> {
        Seat {
            seated: Mutex::new(Seated::Waiting(lane)),
        }
    }

    /// Takes the lane that waits for a thread.
    pub(crate) fn take_for_thread<R: Wait>(&self, rt: &R) -> Option<Lane<J>> {
        let mut seated = self.seated.lock(rt);
        match mem::replace(&mut *seated, Seated::Away) {
            Seated::Waiting(lane) => Some(lane),
            other => {
                *seated = other;
                None
            }
        }
    }

    /// Takes the lane for which no thread could be started.
    pub(crate) fn take_without_thread<R: Wait>(&self, rt: &R) -> Option<Lane<J>> {
        let mut seated = self.seated.lock(rt);
        match mem::replace(&mut *seated, Seated::Away) {
            Seated::Staying(lane) => Some(lane),
            other => {
                *seated = other;
                None
            }
        }
    }

    /// No thread could be started for the lane that waits for one.
    pub(crate) fn stay<R: Wait>(&self, rt: &R) {
        if let Some(lane) = self.take_for_thread(rt) {
            *self.seated.lock(rt) = Seated::Staying(lane);
        }
    }

    /// Brings a lane back, for which all was played.
    pub(crate) fn bring_back<R: Wait>(&self, rt: &R, lane: Lane<J>) {
        *self.seated.lock(rt) = Seated::Back(lane);
    }

    /// Says why a lane doesn't come back.
    pub(crate) fn stop<R: Wait>(&self, rt: &R, stop: Stop) {
        *self.seated.lock(rt) = Seated::Stopped(stop);
    }

    /// The lane that was brought back. None where this thread has it.
    pub(crate) fn into_lane(self) -> Result<Option<Lane<J>>, Stop> {
        match self.seated.into_inner() {
            Seated::Back(lane) => Ok(Some(lane)),
            Seated::Away => Ok(None),
            Seated::Waiting(_) | Seated::Staying(_) => Err(Stop::Strange),
            Seated::Stopped(stop) => Err(stop),
        }
    }
}
