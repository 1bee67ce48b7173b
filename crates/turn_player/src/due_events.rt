//! What an actor does next.
ghost use Rattle.std.specs.Prelude.{◌≡◌, ℕ, List, IfOk};
ghost use Rattle.turn_steps.specs.listed_events.ListedEvents.{TellsOn};
ghost use Rattle.turn_player.specs.DueEvents.{IsShortOf, ListsOf, event_of, texts_in};

use call_journal::{Listed, ListedEvent};
use header_match::Patterns;
use session_player::shared_event;
use std::alloc::Global;
use turn_steps::{Coming, GatedLine, prepare_event};
use xc_base::{Call, CallId, Memory, Shared};

/// What an actor does: an event of the driver, or the start, a pick or the commit of a call.
#[derive(Drop)]
pub enum Act {
    /// An event of the driver, prepared.
    Drive(Coming),
    /// The start of a call.
    Start(Shared<Call>),
    /// A pick of a call, by the draws of a word.
    Pick { call: CallId, word: u64 },
    /// The commit of a call.
    Commit(CallId),
}

/// What an actor does next, with the line in which it is listed.
#[derive(Drop)]
pub struct Due {
    pub(crate) at: GatedLine,
    pub(crate) act: Act,
}

/// The act of a listed event. A response is prepared where the pattern texts are refused that these lines of a report list.
fn act_of<P: Patterns>(
    alloc: Global,
    event: &ListedEvent,
    lines: &[u8],
    patterns: &mut P,
) -> Result<Act, Memory>
    requires short { IsShortOf event.now }
    ensures event { IfOk result (λ act. event_of act ≡ event.now) }
    ensures texts { IfOk result (λ act. (listed : List (List ℕ)) → ListsOf event.now lines.now listed → P.refused patterns.new ≡ P.refused patterns.old → texts_in act ≡ listed) }
    ensures tells { IfOk result (λ act. TellsOn (P.refused patterns.old) (P.refused patterns.new)) }
{
    match event {
        ListedEvent::Driver(event) => {
            let event = shared_event(event)?;
            Ok(Act::Drive(prepare_event(alloc, event, lines, patterns)?))
        }
        ListedEvent::Start(call) => Ok(Act::Start(call.share()?)),
        ListedEvent::Pick { call, word } => Ok(Act::Pick {
            call: *call,
            word: *word,
        }),
        ListedEvent::Commit(call) => Ok(Act::Commit(*call)),
    }
}

/// What is listed, prepared.
pub(crate) fn due_of<P: Patterns>(
    alloc: Global,
    listed: &Listed,
    lines: &[u8],
    patterns: &mut P,
) -> Result<Due, Memory>
    requires short { IsShortOf listed.now.event }
    ensures line { IfOk result (λ due. due.at.line ≡ listed.now.line) }
    ensures after { IfOk result (λ due. due.at.after ≡ listed.now.after) }
    ensures event { IfOk result (λ due. event_of due.act ≡ listed.now.event) }
    ensures texts { IfOk result (λ due. (texts : List (List ℕ)) → ListsOf listed.now.event lines.now texts → P.refused patterns.new ≡ P.refused patterns.old → texts_in due.act ≡ texts) }
    ensures tells { IfOk result (λ due. TellsOn (P.refused patterns.old) (P.refused patterns.new)) }
{
    let act = act_of(alloc, &listed.event, lines, patterns)?;
    let at = GatedLine {
        line: listed.line,
        after: listed.after,
    };
    Ok(Due { at, act })
}
