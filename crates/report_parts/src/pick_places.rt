//! What a pick chose, found in the snapshot that it was made in.
ghost use Rattle.std.specs.Prelude.{◌≡◌, ◌==◌, find, option_copied};
ghost use Rattle.report_parts.specs.Callers.{address_of, category_of, parts_of, picker_in, picker_of_cluster, picker_of_tree};

use cluster_tree::Snapshot;
use tree_text::ShownTree;
use weighted_lb::{Part, PickBody, Picker};
use xc_base::{Address, Reason, Shared, Text};

/// The picker of a cluster's trees, where it has some.
fn picker_of_tree(tree: &Result<Shared<ShownTree>, Reason>) -> Option<&Picker>
    ensures { option_copied result ≡ picker_of_tree tree.now }
{
    match tree {
        Ok(tree) => Some(&tree.get().view().picker),
        Err(_) => None,
    }
}

/// The picker of a cluster's trees.
#[tactic(auto, unfolding(crate::specs::Callers::picker_of_cluster))]
fn picker_of_cluster<'a>(snapshot: &'a Snapshot, cluster: &Text) -> Option<&'a Picker>
    ensures { option_copied result ≡ picker_of_cluster snapshot.now cluster.now }
{
    let place = snapshot.config.get().clusters.find(cluster)?;
    let tree = snapshot.trees.get(place as usize)?;
    picker_of_tree(tree)
}

/// The picker of a cluster's trees in a snapshot.
pub fn picker_in<'a>(snapshot: Option<&'a Snapshot>, cluster: Option<&Text>) -> Option<&'a Picker>
    ensures { option_copied result ≡ picker_in (option_copied snapshot.entry) (option_copied cluster.entry) }
{
    picker_of_cluster(snapshot?, cluster?)
}

/// The READY localities of a picker; one that queues or fails has none.
fn parts_of(body: &PickBody) -> &[Part]
    ensures { result.now ≡ parts_of body.now }
{
    match body {
        PickBody::Ready { parts, .. } => parts.as_slice(),
        PickBody::Queue | PickBody::Fail(_) => &[],
    }
}

/// The READY locality of this number.
fn part_of(parts: &[Part], locality: u32) -> Option<&Part>
    ensures { option_copied result ≡ find (λ part. part.locality == locality) parts.now }
{
    parts.iter().find(|part| part.locality == locality)
}

/// The READY endpoint at a place, from 0, of the locality of this number.
pub fn address_of(picker: &Picker, locality: u32, place: u32) -> Option<&Address>
    ensures { option_copied result ≡ address_of picker.now locality place }
{
    let part = part_of(parts_of(&picker.body), locality)?;
    part.ready.as_slice().get(place as usize)
}

/// The category of the drop rule of this number, from 1.
pub fn category_of(picker: &Picker, rule: u32) -> Option<&Text>
    ensures { option_copied result ≡ category_of picker.now rule }
{
    let place = rule.saturating_sub(1) as usize;
    let drop = picker.drops.as_slice().get(place)?;
    Some(&drop.category)
}
