//! The names of a response's resources, to be looked up.
ghost use Rattle.std.specs.Prelude.{◌≡◌, ◌&&◌, ◌||◌, IfOk, OnOk, is_some, not, true};
ghost use Rattle.std.specs.Str.{bytes_eq};
ghost use Rattle.config_assembly.specs.Orders.{Name};
ghost use Rattle.xds_history.specs.Responses.{is_named};
ghost use Rattle.xds_history.specs.Fates.{deletes, lacks};
ghost use Rattle.xds_history.specs.declared.responses.Told.{Told as ToldValue};
ghost use Rattle.book_fates.specs.NamedParts.{AreNamesOf, has_name};

use crate::part_tests::deletes;
use std::alloc::Global;
use std::collections::BTreeSet;
use xc_base::{Key, Kind, Memory, Text};
use xds_history::Delivery;

/// The names of a response's resources, so that a key is looked up among them and not compared with each.
#[derive(Drop)]
pub struct PartNames {
    /// Whether each resource has a name.
    pub all_named: bool,
    /// The names.
    pub names: BTreeSet<Text>,
}

/// Adds a name to a set of names.
fn add_name(names: &mut BTreeSet<Text>, name: Text) -> Result<(), Memory>
    ensures { OnOk result ((other : Name) → has_name names.new other ≡ (bytes_eq other name || has_name names.old other)) }
{
    names.insert(name)?;
    Ok(())
}

/// Adds a resource.
fn add_part(names: &mut PartNames, part: &Delivery) -> Result<(), Memory>
    ensures all { OnOk result (names.new.all_named ≡ (names.old.all_named && is_some part.now.name)) }
    ensures names { OnOk result ((name : Name) → has_name names.new.names name ≡ (is_named name part.now || has_name names.old.names name)) }
{
    names.all_named = names.all_named && part.name.is_some();
    if let Some(name) = &part.name {
        add_name(&mut names.names, name.clone()?)?;
    }
    Ok(())
}

impl PartNames {
    /// The names of these resources. It fails for want of memory alone.
    pub fn of(alloc: Global, parts: &[Delivery]) -> Result<PartNames, Memory>
        ensures { IfOk result (AreNamesOf parts.now) }
    {
        let mut names = PartNames {
            all_named: true,
            names: BTreeSet::new(alloc),
        };
        for part in parts {
            add_part(&mut names, part)?;
        }
        Ok(names)
    }

    /// What a response of this kind with these resources asks for: their names, where its kind deletes what it lacks, and else
    /// none. It fails for want of memory alone.
    pub fn asked(alloc: Global, kind: Kind, parts: &[Delivery]) -> Result<PartNames, Memory>
        ensures { IfOk result (λ names. deletes kind ≡ true → AreNamesOf parts.now names) }
    {
        if deletes(kind) {
            return PartNames::of(alloc, parts);
        }
        PartNames::of(alloc, &[])
    }
}

/// Whether all have names, and this isn't one of them.
fn is_lacking(all_named: bool, is_there: bool) -> bool
    ensures { result ≡ (all_named && not is_there) }
{
    all_named && !is_there
}

/// Whether a response of these resources lacks a key: none is nameless, and none has the key's name.
pub fn lacks(names: &PartNames, key: &Key) -> bool
    ensures { (told : ToldValue) → AreNamesOf told.parts names.now → result ≡ lacks told key.now }
{
    let is_there = names.names.contains(&key.name);
    is_lacking(names.all_named, is_there)
}
