//! States by what endpoints report.
ghost use Rattle.std.specs.Prelude.{◌≡◌, ◌==◌, map, IfOk, filter};
ghost use Rattle.tree_steps.specs.Reports.{state_in, at_priority};
ghost use Rattle.weighted_lb.specs.States.{is_ready};

use crate::list_room::with_member;
use std::alloc::Global;
use std::collections::BTreeMap;
use xc_base::{Address, List, Memory, State};
use xds_config::Locality;

/// The states of addresses.
#[derive(Drop)]
pub struct AddressStates {
    /// The state of each.
    pub states: Vec<State>,
    /// Those that are READY.
    pub ready: List<Address>,
}

/// The state that an address reported last; before that it is CONNECTING.
pub fn state_in(reports: &BTreeMap<Address, State>, address: &Address) -> State
    ensures { result ≡ state_in reports.now.entries address.now }
{
    match reports.get(address) {
        Some(state) => *state,
        None => State::Connecting,
    }
}

/// Whether the state is READY.
pub(crate) fn is_ready(state: State) -> bool
    ensures { result ≡ is_ready state }
{
    matches!(state, State::Ready)
}

/// The states of addresses, or want of memory. Each address is looked up once.
pub fn address_states(
    alloc: Global,
    reports: &BTreeMap<Address, State>,
    addresses: &[Address],
) -> Result<AddressStates, Memory>
    ensures states { IfOk result (λ read. read.states.items ≡ map (state_in reports.now.entries) addresses.now) }
    ensures ready { IfOk result (λ read. read.ready ≡ filter (λ a. is_ready (state_in reports.now.entries a)) addresses.now) }
{
    let mut states = Vec::with_capacity(alloc, addresses.len())?;
    let mut ready = List::new(alloc);
    for address in addresses {
        let state = state_in(reports, address);
        states.push(state)?;
        if is_ready(state) {
            ready = with_member(alloc, ready, address.clone()?, addresses.len())?;
        }
    }
    Ok(AddressStates { states, ready })
}

/// The localities of a priority in their order, or want of memory.
pub fn at_priority<'a>(
    alloc: Global,
    priority: u32,
    localities: &'a [Locality],
) -> Result<Vec<&'a Locality>, Memory>
    ensures { IfOk result (λ members. map (λ l. l.now) members.items ≡ at_priority priority localities.now) }
{
    localities
        .iter()
        .filter(|locality| locality.priority == priority)
        .collect(alloc)
}
