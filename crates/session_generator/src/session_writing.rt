//! The generated session, as a text and written to a sink.
ghost use Rattle.std.specs.Prelude.{◌≡◌, ◌<◌, ◌≤◌, IfOk, OnOk, OnErr, IsErrOf, string_bytes};
ghost use Rattle.std.specs.Io.KnownBytes.{Appends};
ghost use Rattle.xc_base.specs.Causes.{Rose};
ghost use Rattle.xc_base.specs.Outside.{AppendsPrefix};
ghost use Rattle.session_generator.specs.Generated.{generated};
ghost use Rattle.session_generator.specs.Rounds.{round_lines};

use crate::first_lines::first_lines;
use crate::round_lines::push_round;
use line_output::{OutFault, write_lines};
use std::alloc::Global;
use xc_base::{Memory, Sink};

/// The generated session of n rounds, 1 to 1,000. It fails for want of memory alone.
pub fn session_text(alloc: Global, n: u32) -> Result<String, Memory>
    requires least { 1 ≤ n }
    requires most { n ≤ 1000 }
    ensures { IfOk result (λ text. string_bytes text ≡ generated n) }
{
    let mut text = String::new(alloc);
    text.push_str(first_lines())?;
    for before in 0..n {
        push_round(&mut text, before as u16 + 1)?;
    }
    Ok(text)
}

/// Puts the lines of a round in the place of what stands.
fn set_round(out: &mut String, round: u16) -> Result<(), Memory>
    requires { 0 < round }
    ensures { OnOk result (string_bytes out.new ≡ round_lines round) }
{
    out.clear();
    push_round(out, round)
}

/// Writes the generated session of n rounds, 1 to 1,000, one line at a time. After a fault a prefix of it is written.
/// `WriteFault` comes only where the sink's count of faults rose, and `Memory` where a round had no room.
pub fn write_session<K: Sink>(alloc: Global, n: u32, sink: &mut K) -> Result<(), OutFault>
    requires least { 1 ≤ n }
    requires most { n ≤ 1000 }
    ensures ok { OnOk result (Appends (K.held sink.old) (K.held sink.new) (generated n)) }
    ensures prefix { OnErr result (AppendsPrefix (K.held sink.old) (K.held sink.new) (generated n)) }
    ensures later { K.faults sink.old ≤ K.faults sink.new }
    ensures cause { IsErrOf result OutFault.WriteFault → Rose (K.faults sink.old) (K.faults sink.new) }
{
    write_lines(sink, first_lines())?;
    let mut round = String::new(alloc);
    for before in 0..n {
        set_round(&mut round, before as u16 + 1)?;
        write_lines(sink, round.as_str())?;
    }
    Ok(())
}
