//! The rounds of the generated session.
ghost use Rattle.std.specs.Prelude.{◌≡◌, ◌<◌, ◌++◌, OnOk, string_bytes};
ghost use Rattle.session_generator.specs.Rounds.{driver_lines, round_lines, state_line, state_word, time_line};

use crate::call_lines::push_callers;
use std::fmt::Write;
use xc_base::Memory;

/// Adds the line in which the moment of a round, in milliseconds, is told.
#[tactic(auto, unfolding(crate::specs::Rounds::time_line))]
fn push_time(out: &mut String, gate: u32, round: u16) -> Result<(), Memory>
    ensures { OnOk result (string_bytes out.new ≡ string_bytes out.old ++ time_line gate round) }
{
    write!(out, "@{gate} d time {round}\n")
}

/// The state of the endpoint that changes: it fails in odd rounds, and is ready again in even ones.
fn state_word(round: u16) -> &'static str
    ensures { result.now ≡ state_word round }
{
    if round % 2 == 1 { "failing" } else { "ready" }
}

/// Adds the line in which that state is told.
#[tactic(auto, unfolding(crate::specs::Rounds::state_line))]
fn push_state(out: &mut String, gate: u32, round: u16) -> Result<(), Memory>
    ensures { OnOk result (string_bytes out.new ≡ string_bytes out.old ++ state_line gate round) }
{
    let state = state_word(round);
    write!(out, "@{gate} d endpoint 10.0.0.1:80 {state}\n")
}

/// Adds the driver's lines of a round, each after the last line of a caller.
#[tactic(auto, unfolding(crate::specs::Rounds::driver_lines))]
fn push_driver(out: &mut String, round: u16) -> Result<(), Memory>
    requires { 0 < round }
    ensures { OnOk result (string_bytes out.new ≡ string_bytes out.old ++ driver_lines round) }
{
    let before = 12 + 20 * (u32::from(round) - 1);
    push_time(out, before + 4, round)?;
    push_time(out, before + 8, round)?;
    push_time(out, before + 12, round)?;
    push_state(out, before + 16, round)
}

/// Adds the twenty lines of a round, from 1: those of the four callers, and then the driver's.
#[tactic(auto, unfolding(crate::specs::Rounds::round_lines))]
pub(crate) fn push_round(out: &mut String, round: u16) -> Result<(), Memory>
    requires { 0 < round }
    ensures { OnOk result (string_bytes out.new ≡ string_bytes out.old ++ round_lines round) }
{
    push_callers(out, round)?;
    push_driver(out, round)
}
