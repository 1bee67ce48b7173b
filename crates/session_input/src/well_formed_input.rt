//! The session that bytes spell, with what its reader doesn't say of it: that it is well formed.
ghost use Rattle.std.specs.Prelude.{◌≡◌, ◌≤◌, IfOk, IfSome, Ok, Some};
ghost use Rattle.xds_bootstrap.specs.Authorities.{AreAuthorities};
ghost use Rattle.session_lines.specs.Lines.{lines_of};
ghost use Rattle.session_lines.specs.Session.{Gives, session_of};
ghost use Rattle.session_lines.specs.declared.cause.SessionFault.TheVariants as Fault;
ghost use Rattle.session_lines.specs.declared.session.Session.{Session as SessionValue};
ghost use Rattle.session_generator.specs.Generated.{generated};
ghost use Rattle.generated_law.specs.GeneratedSession.{generated_session};
ghost use Rattle.session_shape.specs.SessionShape.{IsWellFormed};
ghost use Rattle.session_input.specs.Inputs.{document_in, second_line};

use generated_law::generated_spells;
use session_generator::session_text;
use session_lines::lines::next_line;
use session_lines::{Session, SessionFault};
use session_script::read_session;
use session_shape::read_is_well_formed;
use std::alloc::{AllocError, Global};
use std::str;
use xc_base::Memory;
use xds_bootstrap::Bootstrap;

/// Line 2, if there is one.
fn second_line(bytes: &[u8]) -> Option<&[u8]>
    ensures { IfSome result (λ line. second_line (lines_of bytes.now) ≡ Some line.now) }
{
    let (_, rest) = next_line(bytes)?;
    let (line, _) = next_line(rest)?;
    Some(line)
}

/// The document of line 2 of a session, if there is one.
fn document(bytes: &[u8]) -> Option<&str>
    ensures { IfSome result (λ document. document_in bytes.now ≡ Some document.now) }
{
    let line = second_line(bytes)?;
    let text = str::from_utf8(line).ok()?;
    text.strip_prefix("boot ")
}

/// The bootstrap of a session that the bytes spell, read for its own sake: its authorities are in order.
fn bootstrap(alloc: Global, bytes: &[u8]) -> Result<Bootstrap, Memory>
    ensures same { IfOk result (λ boot. (session : SessionValue) → session_of bytes.now ≡ Ok session → boot ≡ session.boot) }
    ensures authorities { IfOk result (λ boot. AreAuthorities boot.authorities) }
{
    let Some(document) = document(bytes) else {
        return Err(AllocError);
    };
    match xds_bootstrap::read(alloc, document.as_bytes()) {
        Ok(boot) => Ok(boot),
        Err(_) => Err(AllocError),
    }
}

/// The session that the bytes spell, or its first fault. It is well formed.
pub fn session_in(alloc: Global, bytes: &[u8]) -> Result<Session, SessionFault>
    ensures gives { Gives (λ session. session) result (session_of bytes.now) }
    ensures formed { IfOk result IsWellFormed }
{
    let session = read_session(alloc, bytes)?;
    let boot = bootstrap(alloc, bytes)?;
    read_is_well_formed();
    let Session {
        target,
        callers,
        lines,
        ..
    } = session;
    Ok(Session {
        boot,
        target,
        callers,
        lines,
    })
}

/// Want of memory, which is the only fault of a text that spells a session.
fn memory_of(fault: SessionFault) -> Memory
    requires { fault ≡ Fault.Memory }
{
    let _fault = fault;
    AllocError
}

/// The generated session of so many rounds, read from its own text.
pub fn generated_input(alloc: Global, rounds: u32) -> Result<Session, Memory>
    requires least { 1 ≤ rounds }
    requires most { rounds ≤ 1000 }
    ensures session { IfOk result (λ session. session ≡ generated_session rounds) }
    ensures formed { IfOk result IsWellFormed }
{
    let text = session_text(alloc, rounds)?;
    generated_spells();
    match session_in(alloc, text.as_str().as_bytes()) {
        Ok(session) => Ok(session),
        Err(fault) => Err(memory_of(fault)),
    }
}
