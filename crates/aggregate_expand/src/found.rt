//! The leaves that were found, each once.
ghost use Rattle.std.specs.Prelude.{◌≡◌, [], ◌∷◌, IfErr, OnOk};
ghost use Rattle.aggregate_expand.specs.LookedUp.{with_names};
ghost use Rattle.aggregate_expand.specs.declared.expand_fault.ExpandFault.TheVariants.{Memory};

use crate::expand_fault::ExpandFault;
use std::alloc::Global;
use std::collections::BTreeSet;
use std::marker::Model;
use xc_base::{List, Text};

/// Names in the order in which they were added, each once.
#[derive(Drop)]
pub(crate) struct Found {
    names: List<Text>,
    index: BTreeSet<Text>,
}

impl Model for Found {
    ghost use Rattle.std.specs.Prelude.{List, ℕ, ◌≡◌};
    ghost use Rattle.std.specs.List.{list_any};
    ghost use Rattle.std.specs.Ordering.{nat_cmp, is_eq};
    ghost use Rattle.std.specs.Cmp.Lexicographic.{slice_cmp};
    ghost use Rattle.aggregate_expand.specs.LookedUp.{has_name};

    ghost Value = { List (List ℕ) };

    ghost view = { λ f. f.names };

    // The index has what the list has.
    ghost invariant = { λ f. (name : List ℕ) → list_any (λ key. is_eq (slice_cmp nat_cmp name key)) f.index.keys ≡ has_name f.names name };
}

impl Found {
    /// No names. It takes no memory.
    pub(crate) fn new(alloc: Global) -> Found
        ensures { result ≡ [] }
    {
        Found {
            names: List::new(alloc),
            index: BTreeSet::new(alloc),
        }
    }

    /// Adds the name where it isn't there.
    pub(crate) fn add(&mut self, name: &Text) -> Result<(), ExpandFault>
        ensures ok { OnOk result (self.new ≡ with_names self.old (name.now ∷ [])) }
        ensures memory { IfErr result (λ fault. fault ≡ Memory) }
    {
        if self.index.contains(name) {
            return Ok(());
        }
        let key = name.clone()?;
        let listed = name.clone()?;
        self.index.insert(key)?;
        match self.names.push(listed) {
            Ok(()) => Ok(()),
            Err(_) => {
                self.index.remove(name);
                Err(ExpandFault::Memory)
            }
        }
    }

    /// The names.
    pub(crate) fn into_names(self) -> List<Text>
        ensures { result ≡ self }
    {
        self.names
    }
}
