//! The gate of the program.
use route_match::RouteAnswer;
use std::sync::Wait;
use threaded_player::Gate;
use xc_base::CallId;

/// A gate that does nothing: no call is held up between its pin and its hold, and nobody is told of lines.
#[derive(Drop)]
pub struct OpenGate;

impl Gate for OpenGate {
    fn between<R: Wait + Sync>(&self, _rt: &R, _call: CallId, _answer: &RouteAnswer) {}

    fn line_ended<R: Wait + Sync>(&self, _rt: &R, _line: u32) {}
}
