//! How lines use calls.
ghost use Rattle.std.specs.Prelude.{◌≡◌, ◌<◌, ◌==◌, ◌||◌, ℕ, if◌then◌else◌, length, IfOk, OnOk};
ghost use Rattle.session_lines.specs.Before.{starts};
ghost use Rattle.session_lines.specs.KeptSession.{caller_with, use_of};

use crate::session::Work;
use xc_base::Memory;

/// How lines use a call.
#[derive(Clone, Copy)]
pub(crate) struct CallUse {
    /// The caller that named it, if one did.
    pub(crate) caller: Option<u16>,
    /// Whether it was started.
    pub(crate) started: bool,
}

/// The use of a call that no line names.
const UNUSED: CallUse = CallUse {
    caller: None,
    started: false,
};

/// How lines use the call of a number, 0 to 65,535. The uses stand by the numbers of their calls.
pub(crate) fn use_of(uses: &[CallUse], id: u32) -> CallUse
    ensures { result ≡ use_of uses.now id }
{
    match uses.get(id as usize) {
        Some(known) => *known,
        None => UNUSED,
    }
}

/// Adds uses of calls that no line names, until there is one at this place.
fn reach(uses: &mut Vec<CallUse>, place: usize) -> Result<(), Memory>
    ensures same { OnOk result ((id : ℕ) → use_of uses.new.items id ≡ use_of uses.old.items id) }
    ensures reached { OnOk result (place < length uses.new.items) }
{
    while uses.len() <= place {
        uses.push(UNUSED)?;
    }
    Ok(())
}

/// The uses, with this one of the call of a number.
fn with_use(mut uses: Vec<CallUse>, id: u32, new: CallUse) -> Result<Vec<CallUse>, Memory>
    ensures { IfOk result (λ after. (other : ℕ) → use_of after.items other ≡ (if id == other then new else use_of uses.items other)) }
{
    let place = id as usize;
    reach(&mut uses, place)?;
    uses[place] = new;
    Ok(uses)
}

/// The uses after one more line.
pub(crate) fn with_work(uses: Vec<CallUse>, work: &Work) -> Result<Vec<CallUse>, Memory>
    ensures callers { IfOk result (λ after. (id : ℕ) → (use_of after.items id).caller ≡ caller_with work.now id (use_of uses.items id).caller) }
    ensures started { IfOk result (λ after. (id : ℕ) → (use_of after.items id).started ≡ (starts id work.now || (use_of uses.items id).started)) }
{
    match work {
        Work::Driver(_) => Ok(uses),
        Work::Caller { caller, act } => {
            let id = act.call().0;
            let new = CallUse {
                caller: Some(*caller),
                started: act.is_start() || use_of(&uses, id).started,
            };
            with_use(uses, id, new)
        }
    }
}
