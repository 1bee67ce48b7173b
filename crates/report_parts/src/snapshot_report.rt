//! The line of a snapshot.
ghost use Rattle.std.specs.Prelude.{◌≡◌, ◌<◌, ◌^◌, ◌++◌, length, OnOk, option_copied, slice_get, string_bytes};
ghost use Rattle.report_parts.specs.Snapshots.{cluster_text, clusters_from, found_tree_text, front_text, front_words, snapshot_line, snapshot_lines};
ghost use Rattle.tree_text.specs.TreeText.{tree_text};

use block_list::BlockList;
use cluster_tree::Snapshot;
use std::fmt::Write;
use tree_text::{ShownTree, push_escaped};
use xc_base::{Memory, Reason, Shared};
use xds_config::{ClusterEntry, Front};

/// Adds the listener, the route configuration and the place of the host.
fn push_front_words(out: &mut String, front: &Front) -> Result<(), Memory>
    ensures { OnOk result (string_bytes out.new ≡ string_bytes out.old ++ front_words front.now) }
{
    push_escaped(out, &front.listener)?;
    out.push_str(",")?;
    push_escaped(out, &front.routes.get().name)?;
    let host = front.host;
    write!(out, ",{host}")
}

/// Adds the front of a configuration, or the reason why it has none.
fn push_front(out: &mut String, front: &Result<Front, Reason>) -> Result<(), Memory>
    ensures { OnOk result (string_bytes out.new ≡ string_bytes out.old ++ front_text front.now) }
{
    match front {
        Ok(front) => push_front_words(out, front),
        Err(reason) => write!(out, "!{reason}"),
    }
}

/// Adds the trees of a cluster, or the reason why it has none.
fn push_tree(out: &mut String, tree: &Result<Shared<ShownTree>, Reason>) -> Result<(), Memory>
    ensures { OnOk result (string_bytes out.new ≡ string_bytes out.old ++ tree_text tree.now) }
{
    match tree {
        Ok(tree) => out.push_str(tree.get().text().as_str()),
        Err(reason) => write!(out, "!{reason}"),
    }
}

/// Adds the text of trees, of which there may be none.
fn push_found_tree(
    out: &mut String,
    tree: Option<&Result<Shared<ShownTree>, Reason>>,
) -> Result<(), Memory>
    ensures { OnOk result (string_bytes out.new ≡ string_bytes out.old ++ found_tree_text (option_copied tree.entry)) }
{
    match tree {
        Some(tree) => push_tree(out, tree),
        None => Ok(()),
    }
}

/// The trees at a place.
fn tree_at(
    trees: &BlockList<Result<Shared<ShownTree>, Reason>>,
    place: usize,
) -> Option<&Result<Shared<ShownTree>, Reason>>
    ensures { option_copied result ≡ slice_get trees.now place }
{
    trees.get(place)
}

/// Adds a cluster with its trees.
#[tactic(auto, unfolding(crate::specs::Snapshots::cluster_text))]
fn push_cluster(
    out: &mut String,
    cluster: &ClusterEntry,
    tree: Option<&Result<Shared<ShownTree>, Reason>>,
) -> Result<(), Memory>
    ensures { OnOk result (string_bytes out.new ≡ string_bytes out.old ++ cluster_text cluster.now (option_copied tree.entry)) }
{
    out.push_str(" ")?;
    push_escaped(out, &cluster.name)?;
    out.push_str("=")?;
    push_found_tree(out, tree)
}

/// Adds the clusters of a configuration with their trees.
#[tactic(auto, unfolding(crate::specs::Snapshots::clusters_from))]
fn push_clusters(
    out: &mut String,
    clusters: &BlockList<Shared<ClusterEntry>>,
    trees: &BlockList<Result<Shared<ShownTree>, Reason>>,
) -> Result<(), Memory>
    requires { length clusters.now < 2 ^ 31 }
    ensures { OnOk result (string_bytes out.new ≡ string_bytes out.old ++ clusters_from trees.now 0 clusters.now) }
{
    for place in 0..clusters.len() {
        push_cluster(out, clusters.at(place).get(), tree_at(trees, place))?;
    }
    Ok(())
}

/// Adds the line of a snapshot.
#[tactic(auto, unfolding(crate::specs::Snapshots::snapshot_line))]
fn push_snapshot_line(out: &mut String, snapshot: &Snapshot) -> Result<(), Memory>
    ensures { OnOk result (string_bytes out.new ≡ string_bytes out.old ++ snapshot_line snapshot.now) }
{
    let number = snapshot.number;
    let config = snapshot.config.get();
    write!(out, "  snap {number} front=")?;
    push_front(out, &config.front)?;
    push_clusters(out, config.clusters.as_blocks(), &snapshot.trees)?;
    out.push_str("\n")
}

/// Adds the line of a snapshot, if there is one.
pub fn push_snapshot_lines(out: &mut String, snapshot: Option<&Snapshot>) -> Result<(), Memory>
    ensures { OnOk result (string_bytes out.new ≡ string_bytes out.old ++ snapshot_lines (option_copied snapshot.entry)) }
{
    match snapshot {
        Some(snapshot) => push_snapshot_line(out, snapshot),
        None => Ok(()),
    }
}
