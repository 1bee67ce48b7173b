//! The leaves of a cluster.
ghost use Rattle.std.specs.Prelude.{◌≡◌, ◌≢◌, ◌+◌, AllPairs, length, OnOk, Ok, Err, IfOk, true, false};
ghost use Rattle.aggregate_expand.specs.LookedUp.{with_names};
ghost use Rattle.aggregate_expand.specs.Chains.{HasChain, AreLeaves};
ghost use Rattle.aggregate_expand.specs.Leaves.{goes_on, ends, leaves_of};
ghost use Rattle.aggregate_expand.specs.LookUps.{CountsLookUps};
ghost use Rattle.aggregate_expand.specs.LeafWalk.{room_at, AreDone, AddsOnChains};
ghost use Rattle.aggregate_expand.specs.declared.expand_fault.ExpandFault.TheVariants.{Depth};

use crate::expand_fault::ExpandFault;
use crate::found::Found;
use crate::lookup::Lookup;
use crate::visits::Visits;
use std::alloc::Global;
use std::sync::ledger::Ledger;
use xc_base::{List, Steps, Text};

/// The most clusters in a chain.
pub const LONGEST_CHAIN: u32 = 16;

/// Finds the leaves on chains from the cluster, which ends a chain of this length. What was visited at the
/// same length is passed over.
fn walk<K: Lookup, L: Ledger>(
    name: &Text,
    chain_length: u32,
    lookup: &K,
    visits: &mut Visits,
    found: &mut Found,
    steps: &mut Steps<L>,
) -> Result<(), ExpandFault>
    requires done { AreDone (K.table lookup.now) (room_at chain_length) visits.old found.old }
    requires differ { AllPairs (λ visit other. visit ≢ other) visits.old }
    ensures free { OnOk result (goes_on (K.table lookup.now) (room_at chain_length) name.now ≡ false) }
    ensures found { OnOk result (found.new ≡ with_names found.old (ends (K.table lookup.now) (room_at chain_length) name.now)) }
    ensures done { OnOk result (AreDone (K.table lookup.now) (room_at chain_length) visits.new found.new) }
    ensures depth { result ≡ Err Depth → goes_on (K.table lookup.now) (room_at chain_length) name.now ≡ true }
    ensures adds { AddsOnChains (K.table lookup.now) name.now chain_length visits.old visits.new }
    ensures differ { AllPairs (λ visit other. visit ≢ other) visits.new }
    ensures cost { steps.new + length visits.old ≡ steps.old + length visits.new }
{
    if chain_length > LONGEST_CHAIN {
        return Err(ExpandFault::Depth);
    }
    if !visits.mark(name, chain_length)? {
        return Ok(());
    }
    steps.tick();
    match lookup.children(name) {
        None => found.add(name),
        Some(children) => {
            for child in children.as_slice() {
                walk(child, chain_length + 1, lookup, visits, found, steps)?;
            }
            Ok(())
        }
    }
}

/// The leaves of a cluster, depth first, each at its first place. `Depth` is that a chain of 17 clusters
/// begins with it. Each pair of a cluster and a chain length is looked up at most once, one step each.
pub fn leaves<K: Lookup, L: Ledger>(
    alloc: Global,
    name: &Text,
    lookup: &K,
    steps: &mut Steps<L>,
) -> Result<List<Text>, ExpandFault>
    // What the cluster stands for, computed from the table.
    ensures ok { IfOk result (λ names. leaves_of (K.table lookup.now) name.now ≡ Ok names) }
    ensures depth { result ≡ Err Depth → leaves_of (K.table lookup.now) name.now ≡ Err Depth }

    // The same by the lists of child places that lead to clusters.
    ensures led { IfOk result (AreLeaves (K.table lookup.now) name.now) }
    ensures short { OnOk result (HasChain (K.table lookup.now) 17 name.now → ⊥) }
    ensures long { result ≡ Err Depth → HasChain (K.table lookup.now) 17 name.now }

    ensures cost { CountsLookUps (K.table lookup.now) name.now steps.old steps.new }
{
    let mut visits = Visits::new(alloc);
    let mut found = Found::new(alloc);
    match walk(name, 1, lookup, &mut visits, &mut found, steps) {
        Ok(()) => Ok(found.into_names()),
        Err(fault) => Err(fault),
    }
}
