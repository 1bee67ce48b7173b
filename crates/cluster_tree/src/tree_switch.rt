//! The trees of a cluster: one serves, and a new one may wait to take over.
ghost use Rattle.std.specs.Prelude.{◌≡◌, if◌then◌else◌, Some, None, option_map, IfOk};
ghost use Rattle.xds_config.specs.Configs.{AreLawfulLeaves};
ghost use Rattle.graceful_switch.specs.Takeover.{has_to_wait, settled};
ghost use Rattle.tree_steps.specs.TreePickers.{picker_at};
ghost use Rattle.tree_steps.specs.TreeSteps.{state_of, trees_after, named_children};
ghost use Rattle.tree_steps.specs.TreeEnds.{trees_end};

use graceful_switch::Switch;
use std::alloc::Global;
use std::collections::BTreeMap;
use tree_steps::tree::{first_end, follow, has_kind, named_children, stay};
use tree_steps::{NamedChild, NextTree, Tree, TreeView};
use weighted_lb::Picker;
use xc_base::{Address, List, Memory, Shared, State, Time};
use xds_config::Leaves;

/// The trees of a cluster after an update.
#[derive(Drop)]
pub(crate) struct NextTrees {
    pub(crate) trees: Switch<Tree>,
    /// The picker of the serving tree's chosen child.
    pub(crate) picker: Picker,
}

/// One tree alone.
fn alone(next: NextTree) -> NextTrees
    ensures trees { result.trees ≡ record { serving = next.tree; waiting = None } }
    ensures picker { result.picker ≡ next.picker }
{
    NextTrees {
        trees: Switch::new(next.tree),
        picker: next.picker,
    }
}

/// The old tree with the one that is to replace it.
fn take_over(old: NextTree, other: NextTree) -> NextTrees
    ensures trees { result.trees ≡ settled state_of old.tree (Some other.tree) }
    ensures picker { result.picker ≡ (if has_to_wait (state_of old.tree) (state_of other.tree) then old.picker else other.picker) }
{
    let mut trees = Switch::new(old.tree);
    let _none = trees.replace(other.tree);
    match trees.settle() {
        Some(_replaced) => NextTrees {
            trees,
            picker: other.picker,
        },
        None => NextTrees {
            trees,
            picker: old.picker,
        },
    }
}

/// The trees of a cluster after an update. A new tree waits until it isn't CONNECTING, or the old one isn't
/// READY.
pub(crate) fn trees_after(
    alloc: Global,
    reports: &BTreeMap<Address, State>,
    now: Time,
    leaves: &Shared<Leaves>,
    old: Option<&Switch<Tree>>,
) -> Result<NextTrees, Memory>
    requires { AreLawfulLeaves leaves.now }
    ensures trees { IfOk result (λ next. next.trees ≡ trees_after now reports.now.entries leaves.now (option_map (λ r. r.now) old.entry)) }
    ensures picker { IfOk result (λ next. next.picker ≡ picker_at reports.now.entries next.trees.serving.leaves.leaves next.trees.serving.chosen) }
{
    match old {
        Some(trees) => next_trees(alloc, reports, now, leaves, trees),
        None => {
            let tree = follow(alloc, reports, now, leaves, None)?;
            Ok(alone(tree))
        }
    }
}

/// The same where the cluster had trees.
fn next_trees(
    alloc: Global,
    reports: &BTreeMap<Address, State>,
    now: Time,
    leaves: &Shared<Leaves>,
    old: &Switch<Tree>,
) -> Result<NextTrees, Memory>
    requires { AreLawfulLeaves leaves.now }
    ensures trees { IfOk result (λ next. next.trees ≡ trees_after now reports.now.entries leaves.now (Some old.now)) }
    ensures picker { IfOk result (λ next. next.picker ≡ picker_at reports.now.entries next.trees.serving.leaves.leaves next.trees.serving.chosen) }
{
    if has_kind(leaves.get(), old.serving()) {
        let tree = follow(alloc, reports, now, leaves, Some(old.serving()))?;
        Ok(alone(tree))
    } else {
        let other = follow(alloc, reports, now, leaves, old.waiting())?;
        let tree = stay(alloc, reports, now, old.serving())?;
        Ok(take_over(tree, other))
    }
}

/// The children of a tree that waits.
fn waiting_children(
    alloc: Global,
    waiting: Option<&Tree>,
) -> Result<Option<List<NamedChild>>, Memory>
    ensures { IfOk result (λ children. children ≡ option_map named_children (option_map (λ r. r.now) waiting.entry)) }
{
    match waiting {
        Some(tree) => Ok(Some(named_children(alloc, tree)?)),
        None => Ok(None),
    }
}

/// What is seen of a cluster's trees with this picker.
pub(crate) fn trees_view(
    alloc: Global,
    trees: &Switch<Tree>,
    picker: Picker,
) -> Result<TreeView, Memory>
    ensures { IfOk result (λ view. view ≡ record { children = named_children trees.now.serving; chosen = trees.now.serving.chosen; waiting = option_map named_children trees.now.waiting; picker = picker }) }
{
    let serving = trees.serving();
    Ok(TreeView {
        children: named_children(alloc, serving)?,
        chosen: serving.chosen(),
        waiting: waiting_children(alloc, trees.waiting())?,
        picker,
    })
}

/// When the first timer of the trees that runs ends, in milliseconds, or the last of all times where none runs.
pub(crate) fn trees_end(trees: &Switch<Tree>) -> Time
    ensures { result.0 ≡ trees_end trees.now }
{
    let serving = first_end(trees.serving());
    match trees.waiting() {
        Some(tree) => Time(serving.0.min(first_end(tree).0)),
        None => serving,
    }
}
