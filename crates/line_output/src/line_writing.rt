//! The lines of a text, written one after another.
ghost use Rattle.std.specs.Prelude.{◌≡◌, ◌==◌, ◌<◌, ◌≤◌, ◌+◌, length, MatchOption, OnOk, OnErr};
ghost use Rattle.std.specs.Io.KnownBytes.{Appends};
ghost use Rattle.std.specs.List.{position};
ghost use Rattle.xc_base.specs.Causes.{HasCause};
ghost use Rattle.xc_base.specs.Outside.{AppendsPrefix};

use crate::byte_search::find_byte;
use xc_base::{Failed, Sink, write_all};

/// How many bytes the first line has, its line feed included; the last line of a text may lack it.
fn line_len(text: &[u8]) -> usize
    ensures within { result ≤ length text.now }
    ensures some { 0 < length text.now → 0 < result }
    ensures feed { MatchOption (position (λ b. b == 10) text.now) (result ≡ length text.now) (λ at. result ≡ at + 1) }
{
    match find_byte(b'\n', text) {
        Some(at) => at + 1,
        None => text.len(),
    }
}

/// Writes a text, and hands the sink one line at a time, each with its line feed. After a fault a prefix of the text is
/// written. It fails only where the sink failed, which its count of faults tells. It takes no memory.
pub fn write_lines<K: Sink>(sink: &mut K, text: &str) -> Result<(), Failed>
    ensures ok { OnOk result (Appends (K.held sink.old) (K.held sink.new) text.now) }
    ensures prefix { OnErr result (AppendsPrefix (K.held sink.old) (K.held sink.new) text.now) }
    ensures cause { HasCause (K.faults sink.old) (K.faults sink.new) result }
{
    let text = text.as_bytes();
    let mut at = 0;
    while at < text.len() {
        let rest = &text[at..];
        let len = line_len(rest);
        write_all(sink, rest.split_at(len).0)?;
        at += len;
    }
    Ok(())
}
