//! The pairs of a cluster and a chain length that were visited.
ghost use Rattle.std.specs.Prelude.{◌≡◌, ◌≢◌, [], AllPairs, OnOk, IfErr};
ghost use Rattle.aggregate_expand.specs.LeafWalk.{Marks};
ghost use Rattle.aggregate_expand.specs.declared.expand_fault.ExpandFault.TheVariants.{Memory};

use crate::expand_fault::ExpandFault;
use std::alloc::Global;
use std::collections::BTreeSet;
use std::marker::Model;
use xc_base::Text;

/// A cluster, and the length of a chain that ends with it.
#[derive(Drop, PartialEq, Eq, PartialOrd, Ord)]
pub struct Visit {
    pub name: Text,
    pub chain_length: u32,
}

/// A set of such pairs.
#[derive(Drop)]
pub(crate) struct Visits {
    visits: BTreeSet<Visit>,
}

impl Model for Visits {
    ghost use Rattle.std.specs.Prelude.{List};
    ghost use Rattle.aggregate_expand.specs.declared.visits.Visit.{Visit};

    ghost Value = { List Visit };

    ghost view = { λ v. v.visits.keys };
}

impl Visits {
    /// No pairs. It takes no memory.
    pub(crate) fn new(alloc: Global) -> Visits
        ensures { result ≡ [] }
    {
        Visits {
            visits: BTreeSet::new(alloc),
        }
    }

    /// Marks the pair, and tells whether it is new.
    pub(crate) fn mark(&mut self, name: &Text, chain_length: u32) -> Result<bool, ExpandFault>
        ensures marks { Marks self.old self.new (record { name = name.now; chain_length = chain_length }) result }
        ensures differ { OnOk result (AllPairs (λ visit other. visit ≢ other) self.new) }
        ensures memory { IfErr result (λ fault. fault ≡ Memory) }
    {
        let name = name.clone()?;
        match self.visits.insert(Visit { name, chain_length }) {
            Ok(true) => return Ok(true),
            Ok(false) => return Ok(false),
            Err(_) => return Err(ExpandFault::Memory),
        }
    }
}
