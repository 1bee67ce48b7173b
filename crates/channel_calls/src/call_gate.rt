//! What is told of calls and lines.
use route_match::RouteAnswer;
use std::sync::Wait;
use xc_base::CallId;

/// Who is told of calls between their pin and their hold, and of lines. No lock is held while it is told, so it may wait.
pub trait Gate {
    /// A call has found its route, in the snapshot that it has pinned, and doesn't hold its cluster yet.
    fn between<R: Wait + Sync>(&self, rt: &R, call: CallId, answer: &RouteAnswer);

    /// A line has been played, whose last call has answered Ok.
    fn line_ended<R: Wait + Sync>(&self, rt: &R, line: u32);
}
