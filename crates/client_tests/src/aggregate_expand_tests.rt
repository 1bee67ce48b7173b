//! An aggregate of another one, with which it shares a leaf.
ghost use Rattle.std.specs.Prelude.{◌≡◌, ◌<◌};

use crate::text_lists::texts;
use aggregate_expand::{ExpandFault, Lookup, leaves};
use std::alloc::Global;
use std::collections::BTreeMap;
use std::marker::Brand;
use std::sync::ledger::{Blank, Ledger};
use std::test::Fail;
use xc_base::{List, Memory, Steps, Text};

/// The children of aggregates by name.
#[derive(Drop)]
struct Rows {
    rows: BTreeMap<Text, List<Text>>,
}

impl Lookup for Rows {
    ghost use Rattle.std.specs.Ordering.{nat_cmp};
    ghost use Rattle.std.specs.Cmp.Lexicographic.{slice_cmp};
    ghost use Rattle.std.specs.BTreeMap.{get};

    ghost table = { λ s name. get (slice_cmp nat_cmp) s.rows name };

    fn children(&self, name: &Text) -> Option<&List<Text>> {
        self.rows.get(name)
    }
}

fn table(alloc: Global, aggregates: &[(&str, &[&str])]) -> Result<Rows, Memory> {
    let mut rows = BTreeMap::new(alloc);
    for (name, children) in aggregates {
        rows.insert(Text::from_str(alloc, name)?, texts(alloc, children)?)?;
    }
    Ok(Rows { rows })
}

fn leaves_counted<L: Ledger>(
    blank: Blank,
    alloc: Global,
    name: &Text,
    rows: &Rows,
) -> Result<List<Text>, ExpandFault>
    requires name { blank.name ≡ L.name }
    requires parts { blank.parts ≡ L.parts }
    requires some { 0 < blank.parts }
{
    leaves(alloc, name, rows, &mut Steps::<L>::new(blank))
}

fn leaves_of(alloc: Global, rows: &Rows, name: &Text) -> Result<List<Text>, ExpandFault> {
    leaves_counted::<Brand>(Blank::new(1), alloc, name, rows)
}

#[test]
fn leaves_stand_once_at_their_first_places(rt: HostRuntime) -> Result<(), Fail> {
    let alloc = rt.alloc();
    let rows = table(alloc, &[("g", &["x", "l1"]), ("x", &["l2", "l1"])])?;
    let found = leaves_of(alloc, &rows, &Text::from_str(alloc, "g")?)?;
    assert!(rt; found == texts(alloc, &["l2", "l1"])?);
    Ok(())
}
