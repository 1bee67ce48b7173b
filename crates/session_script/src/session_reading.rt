//! The reader of sessions.
ghost use Rattle.std.specs.Prelude.{◌≡◌, ◌+◌, ◌≤◌, [], length, IfOk};
ghost use Rattle.session_lines.specs.Before.{entries};
ghost use Rattle.session_lines.specs.Lines.{lines_of};
ghost use Rattle.session_lines.specs.Session.{Gives, head_of, lines_from, next_of, session_of};
ghost use Rattle.xds_bootstrap.specs.Authorities.{AreAuthorities};

use call_journal::MOST_ENTRIES;
use session_lines::cause::{Cause, SessionFault};
use session_lines::lines::next_line;
use session_lines::reader::{Reader, take_line};
use session_lines::session::Session;
use session_lines::session_head::{Head, boot, callers, header, target};
use std::alloc::Global;
use xc_base::List;

/// The most bytes of a session: 64 MiB.
const MOST_BYTES: usize = 67_108_864;

/// The next line, and what stands after it.
fn next(bytes: &[u8]) -> Result<(&[u8], &[u8]), SessionFault>
    ensures { Gives (λ p. (p.0.now, lines_of p.1.now)) result (next_of (lines_of bytes.now)) }
{
    match next_line(bytes) {
        Some((line, rest)) => Ok((line, rest)),
        None => Err(SessionFault::at(0, Cause::Short)),
    }
}

/// What lines 1 to 4 say, and what stands after them.
#[tactic(auto, unfolding(session_lines::specs::Session::head_of))]
fn head(alloc: Global, bytes: &[u8]) -> Result<(Head, &[u8]), SessionFault>
    ensures gives { Gives (λ p. (p.0, lines_of p.1.now)) result (head_of (lines_of bytes.now)) }
    ensures lawful { IfOk result (λ p. AreAuthorities p.0.boot.authorities) }
{
    let (line, rest) = next(bytes)?;
    header(line)?;
    let (line, rest) = next(rest)?;
    let boot = boot(alloc, line)?;
    let (line, rest) = next(rest)?;
    let target = target(alloc, &boot, line)?;
    let (line, rest) = next(rest)?;
    let callers = callers(line)?;
    let head = Head {
        boot,
        target,
        callers,
    };
    Ok((head, rest))
}

/// The lines from line 5 on.
fn lines(alloc: Global, head: &Head, bytes: &[u8]) -> Result<Reader, SessionFault>
    requires lawful { AreAuthorities head.now.boot.authorities }
    ensures { Gives (λ reader. reader) result (lines_from head.now [] 5 (lines_of bytes.now)) }
{
    let mut reader = Reader::new(alloc);
    let mut rest = bytes;
    while let Some((line, after)) = next_line(rest) {
        reader = take_line(reader, head, line)?;
        rest = after;
    }
    Ok(reader)
}

/// The session that the bytes spell, or its first fault. It is read in one pass, and only what is kept is
/// copied.
#[tactic(auto, unfolding(session_lines::specs::Session::session_of, session_lines::specs::Session::session_within))]
pub fn read_session(alloc: Global, bytes: &[u8]) -> Result<Session, SessionFault>
    ensures gives { Gives (λ session. session) result (session_of bytes.now) }
    ensures few { IfOk result (λ session. entries session.lines + 1 ≤ 1048576) }
{
    if bytes.len() > MOST_BYTES {
        return Err(SessionFault::at(0, Cause::Size));
    }
    let (head, rest) = head(alloc, bytes)?;
    let reader = lines(alloc, &head, rest)?;
    if reader.entries() + 1 > MOST_ENTRIES as usize {
        return Err(SessionFault::at(0, Cause::Entries));
    }
    Ok(Session {
        boot: head.boot,
        target: head.target,
        callers: head.callers,
        lines: List::from_vec(reader.into_lines()),
    })
}
