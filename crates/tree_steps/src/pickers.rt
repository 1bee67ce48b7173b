//! The states of children, with their pickers.
ghost use Rattle.std.specs.Prelude.{◌≡◌, ◌<◌, ◌^◌, map, length, if◌then◌else◌, Ok, IfOk, All};
ghost use Rattle.std.specs.List.{list_any};
ghost use Rattle.weighted_lb.specs.States.{joined};
ghost use Rattle.xds_config.specs.Endpoints.{IsLawfulEndpoints};
ghost use Rattle.tree_steps.specs.Lent.{lent, all_lent};
ghost use Rattle.tree_steps.specs.Reports.{locality_in, at_priority, priority_in, child_in};
ghost use Rattle.tree_steps.specs.TreePickers.{parts_from, has_address, picker_in, child_picker};
ghost use Rattle.xc_base.specs.declared.reason.Reason.TheVariants.{Failing, NoEndpoints};

use crate::leaf_children::Child;
use crate::list_room::with_member;
use crate::reports::{address_states, at_priority, is_ready};
use std::alloc::Global;
use std::collections::BTreeMap;
use weighted_lb::{
    Part, PickBody, Picker, copy_rules, locality_state, make_picker, weighted_state,
};
use xc_base::{Address, List, Memory, Reason, State};
use xds_config::{EndpointValue, Locality};

/// What a balancer tells at once: its state, and the picker for its calls.
#[derive(Drop)]
pub struct BalancingState {
    /// CONNECTING, READY or TRANSIENT_FAILURE.
    pub state: State,
    /// What its calls are picked from.
    pub picker: Picker,
}

/// What several balancers tell.
#[derive(Drop)]
pub struct BalancingStates {
    /// The state of each.
    pub states: Vec<State>,
    /// The picker of each.
    pub pickers: Vec<Picker>,
}

/// The state of a priority.
#[derive(Drop)]
struct PriorityState {
    state: State,
    /// Its READY localities.
    parts: List<Part>,
}

/// The state of a priority over its localities, and those that are READY, each with its place.
fn priority_state(
    alloc: Global,
    reports: &BTreeMap<Address, State>,
    localities: &[&Locality],
) -> Result<PriorityState, Memory>
    requires { length localities.now < 2 ^ 31 }
    ensures state { IfOk result (λ priority. priority.state ≡ joined (map (locality_in reports.now.entries) (map (λ l. l.now) localities.now))) }
    ensures parts { IfOk result (λ priority. priority.parts ≡ parts_from reports.now.entries 0 (map (λ l. l.now) localities.now)) }
{
    let mut states = Vec::with_capacity(alloc, localities.len())?;
    let mut parts = List::new(alloc);
    for (place, locality) in localities.iter().enumerate() {
        let read = address_states(alloc, reports, locality.addresses.as_slice())?;
        let state = locality_state(&read.states);
        states.push(state)?;
        if is_ready(state) {
            let part = Part {
                locality: place as u32,
                weight: locality.weight,
                ready: read.ready,
            };
            parts = with_member(alloc, parts, part, localities.len() - place)?;
        }
    }
    Ok(PriorityState {
        state: weighted_state(&states),
        parts,
    })
}

/// Whether a locality has an address.
fn has_address(locality: &Locality) -> bool
    ensures { result ≡ has_address locality.now }
{
    0 < locality.addresses.len()
}

/// Whether a locality among these has an address.
fn have_address(localities: &[&Locality]) -> bool
    ensures { result ≡ list_any has_address (map (λ l. l.now) localities.now) }
{
    for locality in localities {
        if has_address(locality) {
            return true;
        }
    }
    false
}

/// Why localities fail.
fn failure_of(localities: &[&Locality]) -> Reason
    ensures { result ≡ (if list_any has_address (map (λ l. l.now) localities.now) then Failing else NoEndpoints) }
{
    if have_address(localities) {
        Reason::Failing
    } else {
        Reason::NoEndpoints
    }
}

/// The state of a priority of endpoints, with its picker.
fn endpoint_state(
    alloc: Global,
    reports: &BTreeMap<Address, State>,
    priority: u32,
    endpoints: &EndpointValue,
) -> Result<BalancingState, Memory>
    requires { IsLawfulEndpoints endpoints.now }
    ensures state { IfOk result (λ told. told.state ≡ priority_in reports.now.entries priority endpoints.now.localities) }
    ensures picker { IfOk result (λ told. told.picker ≡ picker_in reports.now.entries priority (Ok endpoints.now)) }
{
    let localities = at_priority(alloc, priority, endpoints.localities.as_slice())?;
    let read = priority_state(alloc, reports, &localities)?;
    match read.state {
        State::Ready => {
            let picker = make_picker(alloc, &endpoints.drops, read.parts)?;
            Ok(BalancingState {
                state: State::Ready,
                picker,
            })
        }
        State::Connecting => Ok(BalancingState {
            state: State::Connecting,
            picker: Picker {
                drops: copy_rules(alloc, endpoints.drops.as_slice())?,
                body: PickBody::Queue,
            },
        }),
        State::Failing => Ok(BalancingState {
            state: State::Failing,
            picker: Picker {
                drops: copy_rules(alloc, endpoints.drops.as_slice())?,
                body: PickBody::Fail(failure_of(&localities)),
            },
        }),
    }
}

/// The state of a child over its localities, with its picker; or want of memory. One without localities is failing.
/// Calls wait where the child is CONNECTING, and fail where it fails: with its leaf's reason where the leaf is in error.
pub fn balancing_state(
    alloc: Global,
    reports: &BTreeMap<Address, State>,
    child: Child<'_>,
) -> Result<BalancingState, Memory>
    requires { IfOk child.leaf.now.state IsLawfulEndpoints }
    ensures state { IfOk result (λ told. told.state ≡ child_in reports.now.entries (lent child.entry)) }
    ensures picker { IfOk result (λ told. told.picker ≡ child_picker reports.now.entries (lent child.entry)) }
{
    match &child.leaf.state {
        Ok(endpoints) => endpoint_state(alloc, reports, child.priority, endpoints.get()),
        Err(reason) => Ok(BalancingState {
            state: State::Failing,
            picker: Picker {
                drops: List::new(alloc),
                body: PickBody::Fail(*reason),
            },
        }),
    }
}

/// The states of children with their pickers, or want of memory. Each address is looked up once for each child.
pub fn balancing_states(
    alloc: Global,
    reports: &BTreeMap<Address, State>,
    children: &[Child<'_>],
) -> Result<BalancingStates, Memory>
    requires { All (λ child. IfOk child.0.state IsLawfulEndpoints) (all_lent children.now) }
    ensures states { IfOk result (λ told. told.states.items ≡ map (child_in reports.now.entries) (all_lent children.now)) }
    ensures pickers { IfOk result (λ told. told.pickers.items ≡ map (child_picker reports.now.entries) (all_lent children.now)) }
{
    let mut states = Vec::with_capacity(alloc, children.len())?;
    let mut pickers = Vec::with_capacity(alloc, children.len())?;
    for child in children {
        let told = balancing_state(alloc, reports, *child)?;
        states.push(told.state)?;
        pickers.push(told.picker)?;
    }
    Ok(BalancingStates { states, pickers })
}
