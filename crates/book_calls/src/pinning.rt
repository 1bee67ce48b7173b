//! Open pins of calls, with their tickets.
ghost use Rattle.std.specs.Prelude.{◌≡◌, IfOk, OnOk, OnErr, Some, None, if◌then◌else◌};
ghost use Rattle.std.specs.Map.{lookup};
ghost use Rattle.xc_base.specs.declared.names.CallId.{CallId as CallIdValue};
ghost use Rattle.cluster_refs.specs.CallReferences.{is_call};

use cluster_tree::Snapshot;
use snapshot_store::Ticket;
use std::collections::BTreeMap;
use xc_base::{CallId, Memory};

/// An open pin: the number of the snapshot, and its ticket.
#[derive(Drop)]
pub struct Pinning {
    pub number: u32,
    pub ticket: Ticket<Snapshot>,
}

/// A pin of this snapshot.
pub(crate) fn pinning_of(number: u32, ticket: &Ticket<Snapshot>) -> Result<Pinning, Memory>
    ensures { IfOk result (λ p. p ≡ record { number = number; ticket = ticket.now }) }
{
    Ok(Pinning {
        number,
        ticket: ticket.copy()?,
    })
}

/// This is the call's pin from now on.
pub(crate) fn set_pinning(
    pins: &mut BTreeMap<CallId, Pinning>,
    call: CallId,
    pinning: Pinning,
) -> Result<(), Memory>
    ensures ok { OnOk result ((other : CallIdValue) → lookup (is_call other) pins.new.entries ≡ (if is_call call other then Some pinning else lookup (is_call other) pins.old.entries)) }
    ensures err { OnErr result (pins.new.entries ≡ pins.old.entries) }
{
    pins.insert(call, pinning)?;
    Ok(())
}

/// The call's pin ends, where there is one.
pub(crate) fn end_pinning(pins: &mut BTreeMap<CallId, Pinning>, call: CallId)
    ensures { (other : CallIdValue) → lookup (is_call other) pins.new.entries ≡ (if is_call call other then None else lookup (is_call other) pins.old.entries) }
{
    pins.remove(&call);
}
