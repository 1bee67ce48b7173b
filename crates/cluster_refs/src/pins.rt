//! Open pins and the names of their lists.
ghost use Rattle.std.specs.Prelude.{◌≡◌, [], ◌∷◌, map, IfOk, OnOk, if◌then◌else◌};
ghost use Rattle.std.specs.BTreeSet.{insert_key};
ghost use Rattle.std.specs.List.Sorted.{IsStrictlySortedBy};
ghost use Rattle.std.specs.Ordering.{nat_cmp};
ghost use Rattle.cluster_refs.specs.ReferredNames.{name_cmp};
ghost use Rattle.cluster_refs.specs.PinnedNames.{is_seen, put_in, put_pins};

use std::alloc::Global;
use std::collections::BTreeSet;
use xc_base::{List, Memory, Shared, Text};

/// An open pin: the list of names that it has, and the number of this list.
#[derive(Drop)]
pub struct Pin {
    /// The number of the list. Lists of one number are equal.
    pub number: u32,
    /// The names, which all pins of the list share.
    pub names: Shared<List<Text>>,
}

/// Puts a name into a set of names.
fn put_name(names: &mut BTreeSet<Text>, name: &Text) -> Result<(), Memory>
    ensures { OnOk result (names.new.keys ≡ put_in names.old.keys (name.now ∷ [])) }
{
    names.insert(name.clone()?)?;
    Ok(())
}

/// Puts names into a set of names.
pub(crate) fn put_names(names: &mut BTreeSet<Text>, more: &[Text]) -> Result<(), Memory>
    ensures { OnOk result (names.new.keys ≡ put_in names.old.keys more.now) }
{
    for name in more {
        put_name(names, name)?;
    }
    Ok(())
}

/// Puts the names of a pin's list into a set of names, where the list's number isn't among those that were seen.
fn put_pin(names: &mut BTreeSet<Text>, seen: &mut BTreeSet<u32>, pin: &Pin) -> Result<(), Memory>
    ensures names { OnOk result (names.new.keys ≡ (if is_seen seen.old.keys pin.now.number then names.old.keys else put_in names.old.keys pin.now.names)) }
    ensures seen { OnOk result (seen.new.keys ≡ (if is_seen seen.old.keys pin.now.number then seen.old.keys else insert_key nat_cmp seen.old.keys pin.now.number)) }
{
    if seen.contains(&pin.number) {
        return Ok(());
    }
    seen.insert(pin.number)?;
    put_names(names, pin.names.get().as_slice())
}

/// Puts the names of pinned lists into a set of names, each list once.
pub(crate) fn put_pins(
    alloc: Global,
    names: &mut BTreeSet<Text>,
    pins: &[&Pin],
) -> Result<(), Memory>
    ensures { OnOk result (names.new.keys ≡ put_pins names.old.keys [] (map (λ pin. pin.now) pins.now)) }
{
    let mut seen = BTreeSet::new(alloc);
    for pin in pins {
        put_pin(names, &mut seen, pin)?;
    }
    Ok(())
}

/// The names of a set as a list, in the order of their bytes.
pub(crate) fn in_order(alloc: Global, names: BTreeSet<Text>) -> Result<List<Text>, Memory>
    ensures names { IfOk result (λ list. list ≡ names.keys) }
    ensures rising { IfOk result (IsStrictlySortedBy name_cmp) }
{
    let names = names.into_iter().collect(alloc)?;
    Ok(List::from_vec(names))
}
