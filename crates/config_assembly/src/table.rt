//! The children of aggregates by name.
ghost use Rattle.std.specs.Prelude.{◌≡◌, [], IfOk, OnOk};
ghost use Rattle.xds_cache.specs.KeptFates.{shown};
ghost use Rattle.xc_base.specs.declared.names.Kind.TheVariants.{Cluster as ClusterKind};
ghost use Rattle.config_assembly.specs.Orders.{Name};
ghost use Rattle.config_assembly.specs.Reach.{aggregates, children_in};
ghost use Rattle.config_assembly.specs.ReachedResources.{IsLawfulOf};
ghost use Rattle.config_assembly.specs.Tables.{AreLawfulRows, Holds, cluster_of, row_at, value_at, with_row};
ghost use Rattle.config_assembly.specs.DepsViews.{seen, seen_names};

use crate::sight::Sight;
use aggregate_expand::Lookup;
use std::alloc::Global;
use std::collections::BTreeMap;
use std::marker::Model;
use std::sync::ledger::Ledger;
use xc_base::{Kind, List, Memory, Shared, Steps, Text};
use xds_cache::Fate;
use xds_config::{ClusterValue, Shape, Value};

/// The values of clusters by name.
#[derive(Drop)]
pub struct Table {
    rows: BTreeMap<Text, Shared<ClusterValue>>,
}

impl Model for Table {
    ghost use Rattle.config_assembly.specs.Tables.{Rows};

    ghost Value = { Rows };

    ghost view = { λ t. t.rows.entries };
}

impl Table {
    /// A table without clusters.
    fn new(alloc: Global) -> Table
        ensures { result ≡ [] }
    {
        Table {
            rows: BTreeMap::new(alloc),
        }
    }

    /// Puts the value of a cluster into the table, where it has one.
    fn put(&mut self, name: &Text, fate: Fate<'_>) -> Result<(), Memory>
        requires { IsLawfulOf ClusterKind (shown fate) }
        ensures lawful { OnOk result (AreLawfulRows self.old → AreLawfulRows self.new) }
        ensures row { OnOk result ((other : Name) → value_at self.new other ≡ with_row (value_at self.old) name.now (cluster_of (shown fate.entry)) other) }
    {
        let Fate::Value(Value::Cluster(cluster)) = fate else {
            return Ok(());
        };
        let before = self.rows.insert(name.clone()?, cluster.share()?)?;
        drop(before);
        Ok(())
    }

    /// The table of these clusters, of which those have a row that have a value.
    pub fn of<L: Ledger>(
        sight: Sight<'_>,
        clusters: &[Text],
        steps: &mut Steps<L>,
    ) -> Result<Table, Memory>
        ensures rows { IfOk result (λ table. Holds (aggregates (seen sight.entry)) clusters.now (row_at table)) }
        ensures lawful { IfOk result AreLawfulRows }
    {
        let mut table = Table::new(sight.alloc);
        for cluster in clusters {
            table.put(cluster, sight.fate(Kind::Cluster, cluster, steps)?)?;
        }
        Ok(table)
    }
}

/// The children that a cluster has.
fn children_in(cluster: &ClusterValue) -> Option<&List<Text>>
    ensures { seen_names result ≡ children_in cluster.now.shape }
{
    match &cluster.shape {
        Shape::Aggregate { clusters } => Some(clusters),
        Shape::Eds { .. } => None,
    }
}

impl Lookup for Table {
    ghost use Rattle.config_assembly.specs.Tables.{row_at};

    ghost table = { row_at };

    fn children(&self, name: &Text) -> Option<&List<Text>> {
        let cluster = self.rows.get(name)?;
        children_in(cluster.get())
    }
}
