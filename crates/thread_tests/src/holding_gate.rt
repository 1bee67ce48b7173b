//! A gate that keeps what it is told, and on which one can wait.
use channel_calls::Gate;
use route_match::RouteAnswer;
use std::alloc::Global;
use std::sync::{Mutex, Wait};
use std::thread;
use xc_base::CallId;

/// How often one looks whether a line has ended, at most.
const TURNS: u32 = 100_000_000;

/// A gate that keeps which lines have ended, and holds a call up between its pin and its hold until one of them has.
#[derive(Drop)]
pub struct HoldingGate {
    /// The call that is held up.
    pub call: CallId,
    /// The line for which it waits.
    pub line: u32,
    ended: Mutex<Vec<u32>>,
}

impl HoldingGate {
    /// A gate that was told nothing yet.
    pub fn new(alloc: Global, call: u32, line: u32) -> HoldingGate {
        HoldingGate {
            call: CallId(call),
            line,
            ended: Mutex::new(Vec::new(alloc)),
        }
    }

    /// Whether it was told that a line has ended.
    fn is_told<R: Wait>(&self, rt: &R, line: u32) -> bool {
        self.ended.lock(rt).contains(&line)
    }

    /// Waits until a line has ended, for so many turns at most, and tells whether it has.
    pub fn waits_for<R: Wait>(&self, rt: &R, line: u32) -> bool {
        for _ in 0..TURNS {
            if self.is_told(rt, line) {
                return true;
            }
            thread::yield_now();
        }
        false
    }

    /// Whether it was told once of each line from the first to the last, and of no other.
    pub fn is_told_once(self, first: u32, last: u32) -> bool {
        let HoldingGate { ended, .. } = self;
        let mut ended = ended.into_inner();
        ended.sort_unstable();
        let mut next = first;
        for line in &ended {
            if *line != next {
                return false;
            }
            next = next.wrapping_add(1);
        }
        next == last.wrapping_add(1)
    }
}

impl Gate for HoldingGate {
    fn between<R: Wait + Sync>(&self, rt: &R, call: CallId, _answer: &RouteAnswer) {
        if call == self.call {
            let _ = self.waits_for(rt, self.line);
        }
    }

    fn line_ended<R: Wait + Sync>(&self, rt: &R, line: u32) {
        let _ = self.ended.lock(rt).push(line);
    }
}
