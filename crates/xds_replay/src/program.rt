//! The program: its three commands, over any source and any sink of bytes.
ghost use Rattle.std.specs.Prelude.{◌≡◌, ◌≢◌, ◌↔◌, ◌⊎◌, ◌≤◌, ◌<◌, ◌^◌, [], ℕ, length, IfSome, Err, Ok, None, Some};
ghost use Rattle.std.specs.Io.KnownBytes.{Appends};
ghost use Rattle.xc_base.specs.Causes.{Rose};
ghost use Rattle.xc_base.specs.Outside.{AppendsPrefix};
ghost use Rattle.snapshot_store.specs.Tickets.{values_of};
ghost use Rattle.session_lines.specs.Session.{session_of};
ghost use Rattle.session_lines.specs.declared.cause.Cause.{Cause};
ghost use Rattle.session_lines.specs.declared.session.Session.{Session as SessionValue};
ghost use Rattle.generated_law.specs.GeneratedSession.{generated_session};
ghost use Rattle.xds_history.specs.Pages.{pages};
ghost use Rattle.xds_history.specs.References.{snapshots_of};
ghost use Rattle.xds_history.specs.Right.{Right};
ghost use Rattle.xds_history.specs.Setting.{setting_of};
ghost use Rattle.book_progress.specs.ProgressKept.{most_entries};
ghost use Rattle.text_law.specs.TextLaw.{text_of};
ghost use Rattle.program_status.specs.Commands.{command_of};
ghost use Rattle.program_status.specs.declared.commands.Command.{Command as Asked};
ghost use Rattle.xds_replay.specs.Outcomes.{IsBegun, IsDone, IsWritten, WritesNothing, totals_of};

use header_match::Patterns;
use program_status::{Command, Status, command_of, read_status, status_of, write_status};
use report_law::{one_report, one_totals};
use report_writer::write_report;
use session_generator::write_session;
use session_input::{generated_input, session_in};
use session_lines::Session;
use std::alloc::Global;
use std::mem;
use std::sync::Wait;
use std::thread::Threads;
use threaded_player::{Gate, Played, play_on_threads};
use totals_writer::write_totals;
use xc_base::{Sink, Source, read_all};

/// A session has no more bytes; one more is read, so that it is seen that there are more.
const MOST_READ: u32 = 67_108_865;

/// Writes the report of what was played of a session.
fn report<K: Sink>(alloc: Global, session: &Session, played: &Played, sink: &mut K) -> Status
    requires right { Right (setting_of session.now.boot session.now.target) played.now.journal.entries }
    requires snapshots { values_of played.now.history.tickets ≡ snapshots_of (pages (setting_of session.now.boot session.now.target) played.now.journal.entries) }
    requires few { length played.now.history.tickets ≤ most_entries }
    ensures answers { IsWritten result }
    ensures done { result ≡ Status.Done → Appends (K.held sink.old) (K.held sink.new) (text_of session.now played.now.journal.entries) }
    ensures begun { (result ≡ Status.WriteFault) ⊎ (result ≡ Status.Memory) → AppendsPrefix (K.held sink.old) (K.held sink.new) (text_of session.now played.now.journal.entries) }
    ensures later { K.faults sink.old ≤ K.faults sink.new }
    ensures cause { result ≡ Status.WriteFault → Rose (K.faults sink.old) (K.faults sink.new) }
{
    one_report();
    write_status(write_report(alloc, &session.boot, &played.journal, &played.history, sink))
}

/// Writes the totals of what was played of a session of so many rounds.
fn total<K: Sink>(
    alloc: Global,
    rounds: u32,
    session: &Session,
    played: &Played,
    sink: &mut K,
) -> Status
    requires right { Right (setting_of session.now.boot session.now.target) played.now.journal.entries }
    requires snapshots { values_of played.now.history.tickets ≡ snapshots_of (pages (setting_of session.now.boot session.now.target) played.now.journal.entries) }
    requires few { length played.now.history.tickets ≤ most_entries }
    ensures answers { IsWritten result }
    ensures done { result ≡ Status.Done → Appends (K.held sink.old) (K.held sink.new) (totals_of rounds session.now played.now.journal.entries) }
    ensures begun { (result ≡ Status.WriteFault) ⊎ (result ≡ Status.Memory) → AppendsPrefix (K.held sink.old) (K.held sink.new) (totals_of rounds session.now played.now.journal.entries) }
    ensures later { K.faults sink.old ≤ K.faults sink.new }
    ensures cause { result ≡ Status.WriteFault → Rose (K.faults sink.old) (K.faults sink.new) }
{
    let _session = session;
    one_totals();
    write_status(write_totals(alloc, rounds, &played.journal, &played.history, sink))
}

/// Leaves a session and what was played of it to the end of the process, which gives all memory back at once. Both stand in a
/// great many pieces, and each would be given back by itself.
fn leave(session: Session, played: Played) {
    mem::forget(session);
    mem::forget(played);
}

/// Reads a session from the source, plays it, and writes its report to the sink. The bytes are given back before it is played.
fn replay<S: Source, K: Sink, P: Patterns, G: Gate + Sync, R: Threads + Wait + Sync>(
    rt: &R,
    alloc: Global,
    source: &mut S,
    sink: &mut K,
    patterns: &mut P,
    gate: &G,
) -> Status
    ensures words { result ≢ Status.Words }
    ensures done { result ≡ Status.Done → IsDone Asked.Run (S.left source.old) (K.held sink.old) (K.held sink.new) (P.refused patterns.old) (P.refused patterns.new) }
    ensures begun { (result ≡ Status.WriteFault) ⊎ (result ≡ Status.Memory) → IsBegun Asked.Run (S.left source.old) (K.held sink.old) (K.held sink.new) (P.refused patterns.old) (P.refused patterns.new) }
    ensures session { (line : ℕ) (cause : Cause) → result ≡ Status.Session line cause → IfSome (S.left source.old)
        (λ bytes. session_of bytes ≡ Err record { line = line; cause = cause }) }
    ensures refused { ¬ Rose (S.faults source.old) (S.faults source.new) → IfSome (S.left source.old)
        (λ bytes. (line : ℕ) (cause : Cause) → session_of bytes ≡ Err record { line = line; cause = cause }
        → (result ≡ Status.Session line cause) ⊎ (result ≡ Status.Memory)) }
    ensures complete { ¬ Rose (S.faults source.old) (S.faults source.new) → ¬ Rose (K.faults sink.old) (K.faults sink.new) → IfSome (S.left source.old)
        (λ bytes. (session : SessionValue) → session_of bytes ≡ Ok session → (result ≡ Status.Done) ⊎ (result ≡ Status.Memory)) }
    ensures read { result ≡ Status.ReadFault → Rose (S.faults source.old) (S.faults source.new) }
    ensures write { result ≡ Status.WriteFault → Rose (K.faults sink.old) (K.faults sink.new) }
    ensures nothing { WritesNothing result → sink.new ≡ sink.old }
{
    let bytes = match read_all(alloc, source, MOST_READ) {
        Ok(bytes) => bytes,
        Err(fault) => return read_status(fault),
    };
    let session = match session_in(alloc, &bytes) {
        Ok(session) => session,
        Err(fault) => return status_of(fault),
    };
    drop(bytes);
    match play_on_threads(rt, alloc, &session, gate, patterns) {
        Ok(played) => {
            let status = report(alloc, &session, &played, sink);
            leave(session, played);
            status
        }
        Err(_) => Status::Memory,
    }
}

/// Writes the generated session of so many rounds.
fn generate<K: Sink>(alloc: Global, rounds: u32, sink: &mut K) -> Status
    requires least { 1 ≤ rounds }
    requires most { rounds ≤ 1000 }
    ensures answers { IsWritten result }
    ensures done { result ≡ Status.Done → IsDone (Asked.Gen rounds) None (K.held sink.old) (K.held sink.new) [] [] }
    ensures begun { (result ≡ Status.WriteFault) ⊎ (result ≡ Status.Memory) → IsBegun (Asked.Gen rounds) None (K.held sink.old) (K.held sink.new) [] [] }
    ensures write { result ≡ Status.WriteFault → Rose (K.faults sink.old) (K.faults sink.new) }
{
    write_status(write_session(alloc, rounds, sink))
}

/// Plays the generated session of so many rounds, and writes its totals.
fn load<K: Sink, P: Patterns, G: Gate + Sync, R: Threads + Wait + Sync>(
    rt: &R,
    alloc: Global,
    rounds: u32,
    sink: &mut K,
    patterns: &mut P,
    gate: &G,
) -> Status
    requires least { 1 ≤ rounds }
    requires most { rounds ≤ 1000 }
    ensures answers { IsWritten result }
    ensures done { result ≡ Status.Done → IsDone (Asked.Load rounds) None (K.held sink.old) (K.held sink.new) (P.refused patterns.old) (P.refused patterns.new) }
    ensures begun { (result ≡ Status.WriteFault) ⊎ (result ≡ Status.Memory) → IsBegun (Asked.Load rounds) None (K.held sink.old) (K.held sink.new) (P.refused patterns.old) (P.refused patterns.new) }
    ensures write { result ≡ Status.WriteFault → Rose (K.faults sink.old) (K.faults sink.new) }
{
    let session = match generated_input(alloc, rounds) {
        Ok(session) => session,
        Err(_) => return Status::Memory,
    };
    match play_on_threads(rt, alloc, &session, gate, patterns) {
        Ok(played) => {
            let status = total(alloc, rounds, &session, &played, sink);
            leave(session, played);
            status
        }
        Err(_) => Status::Memory,
    }
}

/// Does what the words ask for: `run` reads a session from the source, plays it, and writes its report to the sink; `gen N`
/// writes the generated session of N rounds; `load N` plays that session and writes its totals. A session is played by
/// threads: the driver by this one, and each caller by one of its own, or by this one, in the order of the file, where none
/// can be started. The gate is told of calls and lines on the way. The words come without the program's name. A session and
/// what was played of it stay in memory until the process ends.
///
/// `Words` comes where the words are none of these commands, and `Session` where the bytes are no session, with the first
/// fault. A source or a sink that tells nothing of its bytes leaves open what was read or written.
pub fn run<S: Source, K: Sink, P: Patterns, G: Gate + Sync, R: Threads + Wait + Sync>(
    rt: &R,
    alloc: Global,
    words: &[String],
    source: &mut S,
    sink: &mut K,
    patterns: &mut P,
    gate: &G,
) -> Status
    // The words are those of no command.
    ensures words { (result ≡ Status.Words) ↔ (command_of words.now ≡ None) }

    // The command did its work: what is written is the report of a legal history of the session that the bytes spell, the
    // generated session, or the totals of a legal history of it.
    ensures done { (command : Asked) → command_of words.now ≡ Some command → result ≡ Status.Done
        → IsDone command (S.left source.old) (K.held sink.old) (K.held sink.new) (P.refused patterns.old) (P.refused patterns.new) }

    // What is written is nothing, or a prefix of such a text.
    ensures begun { (command : Asked) → command_of words.now ≡ Some command → (result ≡ Status.WriteFault) ⊎ (result ≡ Status.Memory)
        → IsBegun command (S.left source.old) (K.held sink.old) (K.held sink.new) (P.refused patterns.old) (P.refused patterns.new) }

    // The words are `run`, the bytes are no session, and this is the first fault.
    ensures session { (line : ℕ) (cause : Cause) → result ≡ Status.Session line cause → (command_of words.now ≡ Some Asked.Run) × IfSome (S.left source.old)
        (λ bytes. session_of bytes ≡ Err record { line = line; cause = cause }) }

    // Bytes that are no session are refused with their first fault, where the source didn't fail.
    ensures refused { command_of words.now ≡ Some Asked.Run → ¬ Rose (S.faults source.old) (S.faults source.new) → IfSome (S.left source.old)
        (λ bytes. (line : ℕ) (cause : Cause) → session_of bytes ≡ Err record { line = line; cause = cause }
        → (result ≡ Status.Session line cause) ⊎ (result ≡ Status.Memory)) }

    // A session is played and reported, where neither the source nor the sink failed.
    ensures complete { command_of words.now ≡ Some Asked.Run → ¬ Rose (S.faults source.old) (S.faults source.new) → ¬ Rose (K.faults sink.old) (K.faults sink.new) → IfSome (S.left source.old)
        (λ bytes. (session : SessionValue) → session_of bytes ≡ Ok session → (result ≡ Status.Done) ⊎ (result ≡ Status.Memory)) }

    // The generated session is written, or its totals, where the sink didn't fail.
    ensures written { (command : Asked) → command_of words.now ≡ Some command → command ≢ Asked.Run → ¬ Rose (K.faults sink.old) (K.faults sink.new) → (result ≡ Status.Done) ⊎ (result ≡ Status.Memory) }

    ensures read { result ≡ Status.ReadFault → Rose (S.faults source.old) (S.faults source.new) }
    ensures write { result ≡ Status.WriteFault → Rose (K.faults sink.old) (K.faults sink.new) }
    ensures nothing { WritesNothing result → sink.new ≡ sink.old }
{
    match command_of(words) {
        None => Status::Words,
        Some(Command::Run) => replay(rt, alloc, source, sink, patterns, gate),
        Some(Command::Gen(rounds)) => generate(alloc, rounds, sink),
        Some(Command::Load(rounds)) => load(rt, alloc, rounds, sink, patterns, gate),
    }
}
