//! The lines of the callers in the generated session.
ghost use Rattle.std.specs.Prelude.{◌≡◌, ◌<◌, ◌+◌, ◌*◌, ◌%◌, ◌^◌, ◌++◌, OnOk, string_bytes};
ghost use Rattle.session_generator.specs.Rounds.{call_lines, caller_lines, commit_line, first_call, line_before, pick_line, start_line, word_of_call};

use std::fmt::Write;
use xc_base::Memory;
use xc_base::draws::GOLDEN;

/// The word of a call.
fn word_of_call(call: u32) -> u64
    ensures { result ≡ word_of_call call }
{
    u64::from(call).wrapping_mul(GOLDEN)
}

/// Adds the line in which a call starts.
#[tactic(auto, unfolding(crate::specs::Rounds::start_line))]
fn push_start(out: &mut String, gate: u32, caller: u32, call: u32) -> Result<(), Memory>
    ensures { OnOk result (string_bytes out.new ≡ string_bytes out.old ++ start_line gate caller call) }
{
    let word = word_of_call(call);
    write!(out, "@{gate} c {caller} start {call} {word} /load.S/M\n")
}

/// Adds the line in which a call picks.
#[tactic(auto, unfolding(crate::specs::Rounds::pick_line))]
fn push_pick(out: &mut String, caller: u32, call: u32) -> Result<(), Memory>
    ensures { OnOk result (string_bytes out.new ≡ string_bytes out.old ++ pick_line caller call) }
{
    let word = word_of_call(call);
    write!(out, "c {caller} pick {call} {word}\n")
}

/// Adds the line in which a call is committed.
#[tactic(auto, unfolding(crate::specs::Rounds::commit_line))]
fn push_commit(out: &mut String, caller: u32, call: u32) -> Result<(), Memory>
    ensures { OnOk result (string_bytes out.new ≡ string_bytes out.old ++ commit_line caller call) }
{
    write!(out, "c {caller} commit {call}\n")
}

/// Adds the lines of a call: it starts after the line of the gate, picks twice, and is committed.
#[tactic(auto, unfolding(crate::specs::Rounds::call_lines))]
fn push_call(out: &mut String, gate: u32, caller: u32, call: u32) -> Result<(), Memory>
    ensures { OnOk result (string_bytes out.new ≡ string_bytes out.old ++ call_lines gate caller call) }
{
    push_start(out, gate, caller, call)?;
    push_pick(out, caller, call)?;
    push_pick(out, caller, call)?;
    push_commit(out, caller, call)
}

/// Adds the lines of the four callers in a round, each with a call of its own.
#[tactic(auto, unfolding(crate::specs::Rounds::caller_lines))]
pub(crate) fn push_callers(out: &mut String, round: u16) -> Result<(), Memory>
    requires { 0 < round }
    ensures { OnOk result (string_bytes out.new ≡ string_bytes out.old ++ caller_lines round) }
{
    let before = u32::from(round) - 1;
    let gate = 12 + 20 * before;
    let call = 4 * before;
    push_call(out, gate, 1, call)?;
    push_call(out, gate, 2, call + 1)?;
    push_call(out, gate, 3, call + 2)?;
    push_call(out, gate, 4, call + 3)
}
