//! What calls refer to, one pin, hold or commit on.
ghost use Rattle.std.specs.Prelude.{◌≡◌, Some, None, IfSome, IsTrue, OnOk, OnErr};
ghost use Rattle.std.specs.Option.{option_copied};
ghost use Rattle.cluster_refs.specs.CallReferences.{IsHeld, IsListOf, SetsPin, SetsHold, hold_of};
ghost use Rattle.book_calls.specs.RefsKept.{SetsBoth};

use cluster_refs::Refs;
use xc_base::{CallId, List, Memory, Shared, Text};

/// Opens the call's pin anew, on the list of this number.
pub(crate) fn set_pin(
    refs: &mut Refs,
    call: CallId,
    number: u32,
    names: &Shared<List<Text>>,
) -> Result<(), Memory>
    requires { IsListOf refs.old number names.now }
    ensures ok { OnOk result (SetsPin refs.old refs.new call (Some (record { number = number; names = names.now }))) }
    ensures err { OnErr result (SetsPin refs.old refs.new call None) }
{
    refs.unpin(call);
    refs.pin(call, number, names)?;
    Ok(())
}

/// The call holds this name, where there is one, and nothing else.
fn hold_only(refs: &mut Refs, call: CallId, name: Option<&Text>) -> Result<(), Memory>
    ensures ok { OnOk result (SetsHold refs.old refs.new call (option_copied name.entry)) }
    ensures err { OnErr result (SetsHold refs.old refs.new call None) }
{
    refs.release(call);
    if let Some(name) = name {
        refs.hold(call, name)?;
    }
    Ok(())
}

/// The call holds this name, where there is one, and its pin ends.
pub(crate) fn set_hold(refs: &mut Refs, call: CallId, name: Option<&Text>) -> Result<(), Memory>
    ensures ok { OnOk result (SetsBoth refs.old refs.new call (option_copied name.entry)) }
    ensures err { OnErr result (SetsHold refs.old refs.new call None) }
{
    hold_only(refs, call, name)?;
    refs.unpin(call);
    Ok(())
}

/// Ends what the call holds, and answers the name that it held, if it held one.
pub(crate) fn end_hold(refs: &mut Refs, call: CallId) -> Option<Text>
    ensures held { result ≡ hold_of refs.old call }
    ensures gone { SetsHold refs.old refs.new call None }
{
    let held = refs.release(call);
    held
}

/// Whether calls stay known to hold the same names, where one begins to hold this name or has left it, if there is one: other
/// calls hold it, too.
pub(crate) fn holds_stay(stays: bool, refs: &Refs, name: Option<&Text>) -> bool
    ensures before { IsTrue result → IsTrue stays }
    ensures held { IsTrue result → IfSome (option_copied name.entry) (IsHeld refs.now) }
{
    match name {
        Some(name) => stays && refs.is_held(name),
        None => stays,
    }
}
