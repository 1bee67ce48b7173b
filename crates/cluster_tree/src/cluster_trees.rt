//! A cluster with its trees.
ghost use Rattle.std.specs.Prelude.{◌≡◌, ◌↔◌, Some, None, Err, IsTrue, true, map, option_map, IfOk, IfSome, OnOk};
ghost use Rattle.std.specs.Option.{option_and_then};
ghost use Rattle.xds_config.specs.Configs.{AreLawfulLeaves};
ghost use Rattle.cluster_tree.specs.StandingTrees.{standing, trees_of, cluster_after, view_in};
ghost use Rattle.cluster_tree.specs.ClusterUsers.{FollowsEntry};
ghost use Rattle.cluster_tree.specs.PutEntries.{with_entry};
ghost use Rattle.cluster_tree.specs.ViewChanges.{seen_of, tree_view_of, IsChangeMark, served_localities};
ghost use Rattle.tree_steps.specs.Users.{Grows, ReadsLeaves};
ghost use Rattle.tree_steps.specs.TreeSteps.{trees_after};

use crate::tree_switch::{NextTrees, trees_after, trees_end, trees_view};
use graceful_switch::Switch;
use std::alloc::Global;
use std::collections::BTreeMap;
use tree_steps::tree::chosen_localities;
use tree_steps::{Tree, TreeView, Users};
use tree_text::ShownTree;
use xc_base::{Address, Memory, Reason, Same, Shared, State, Text, Time};
use xds_config::{ClusterEntry, Leaves, Locality};

/// The trees of a cluster, and what is seen of them.
#[derive(Drop)]
pub(crate) struct Standing {
    pub(crate) trees: Switch<Tree>,
    pub(crate) view: Shared<ShownTree>,
    /// When the first timer of the trees that runs ends, or the last of all times where none runs.
    pub(crate) until: Time,
}

/// A cluster of the configuration with its trees, or the reason why it has none.
#[derive(Drop)]
pub(crate) struct Cluster {
    pub(crate) entry: Shared<ClusterEntry>,
    pub(crate) state: Result<Shared<Standing>, Reason>,
}

/// A cluster after an update.
#[derive(Drop)]
pub(crate) struct NextCluster {
    pub(crate) cluster: Cluster,
    /// Whether what is seen of it differs from before.
    pub(crate) changed: bool,
    /// Whether it was made anew, and isn't the one from before.
    pub(crate) anew: bool,
}

/// The trees of a cluster after an update.
#[derive(Drop)]
struct NextStanding {
    standing: Standing,
    /// Whether what is seen of them differs from before.
    changed: bool,
}

/// What is seen of trees after an update.
#[derive(Drop)]
struct NextView {
    view: Shared<ShownTree>,
    /// Whether it differs from before.
    changed: bool,
}

/// A view that nothing shares yet, in words.
fn shown(alloc: Global, view: TreeView) -> Result<Shared<ShownTree>, Memory>
    ensures { IfOk result (λ shown. shown ≡ view) }
{
    let shown = ShownTree::new(alloc, view)?;
    Ok(Shared::new(alloc, shown)?)
}

/// A view that is shared with the one before where it is the same.
fn shared_view(alloc: Global, view: TreeView, old: Option<&Standing>) -> Result<NextView, Memory>
    ensures view { IfOk result (λ next. next.view ≡ view) }
    ensures changed { IfOk result (λ next. IsChangeMark next.changed (option_map (λ r. r.now.view) old.entry) view) }
{
    match old {
        Some(old) => compared_view(alloc, view, &old.view),
        None => Ok(NextView {
            view: shown(alloc, view)?,
            changed: true,
        }),
    }
}

/// The same where there was a view before.
fn compared_view(alloc: Global, view: TreeView, old: &Shared<ShownTree>) -> Result<NextView, Memory>
    ensures view { IfOk result (λ next. next.view ≡ view) }
    ensures changed { IfOk result (λ next. IsChangeMark next.changed (Some old.now) view) }
{
    let same = old.get().view().same(&view);
    let view = if same {
        old.share()?
    } else {
        shown(alloc, view)?
    };
    Ok(NextView {
        view,
        changed: !same,
    })
}

/// What is kept of a cluster's trees, if it has some.
fn standing_of(cluster: Option<&Cluster>) -> Option<&Standing>
    ensures view { option_map (λ r. r.now.view) result ≡ option_and_then tree_view_of (option_map (λ r. r.now) cluster.entry) }
    ensures trees { option_map (λ r. r.now.trees) result ≡ option_and_then trees_of (option_map (λ r. r.now) cluster.entry) }
{
    match &cluster?.state {
        Ok(standing) => Some(standing.get()),
        Err(_) => None,
    }
}

/// The trees of a cluster, if it has some.
fn trees_of(standing: Option<&Standing>) -> Option<&Switch<Tree>>
    ensures { option_map (λ r. r.now) result ≡ option_map (λ r. r.now.trees) standing.entry }
{
    match standing {
        Some(standing) => Some(&standing.trees),
        None => None,
    }
}

/// The trees of a cluster after an update.
fn standing_after(
    alloc: Global,
    reports: &BTreeMap<Address, State>,
    now: Time,
    leaves: &Shared<Leaves>,
    old: Option<&Standing>,
) -> Result<NextStanding, Memory>
    requires { AreLawfulLeaves leaves.now }
    ensures changed { IfOk result (λ next. IsChangeMark next.changed (option_map (λ r. r.now.view) old.entry) next.standing.view) }
    ensures standing { IfOk result (λ next. next.standing ≡ standing reports.now.entries (trees_after now reports.now.entries leaves.now (option_map (λ r. r.now.trees) old.entry))) }
{
    let NextTrees { trees, picker } = trees_after(alloc, reports, now, leaves, trees_of(old))?;
    let view = trees_view(alloc, &trees, picker)?;
    let until = trees_end(&trees);
    let next = shared_view(alloc, view, old)?;
    Ok(NextStanding {
        standing: Standing {
            trees,
            view: next.view,
            until,
        },
        changed: next.changed,
    })
}

/// Whether a cluster has no trees for this reason.
fn is_in_error(cluster: Option<&Cluster>, reason: Reason) -> bool
    ensures { IsTrue result ↔ (option_map seen_of (option_map (λ r. r.now) cluster.entry) ≡ Some (Err reason)) }
{
    match cluster {
        Some(cluster) => is_error(&cluster.state, reason),
        None => false,
    }
}

/// Whether there are no trees for this reason.
fn is_error(state: &Result<Shared<Standing>, Reason>, reason: Reason) -> bool
    ensures { IsTrue result ↔ (view_in state.now ≡ Err reason) }
{
    match state {
        Ok(_) => false,
        Err(other) => other.same(&reason),
    }
}

/// A cluster after an update, or want of memory.
pub(crate) fn cluster_after(
    alloc: Global,
    reports: &BTreeMap<Address, State>,
    now: Time,
    entry: &Shared<ClusterEntry>,
    old: Option<&Cluster>,
) -> Result<NextCluster, Memory>
    requires { IfOk entry.now.state AreLawfulLeaves }
    ensures changed { IfOk result (λ next. IsChangeMark next.changed (option_map seen_of (option_map (λ r. r.now) old.entry)) (seen_of next.cluster)) }
    ensures cluster { IfOk result (λ next. next.cluster ≡ cluster_after now reports.now.entries entry.now (option_map (λ r. r.now) old.entry)) }
    ensures anew { IfOk result (λ next. next.anew ≡ true) }
{
    match &entry.get().state {
        Ok(leaves) => {
            let next = standing_after(alloc, reports, now, leaves, standing_of(old))?;
            Ok(NextCluster {
                cluster: Cluster {
                    entry: entry.share()?,
                    state: Ok(Shared::new(alloc, next.standing)?),
                },
                changed: next.changed,
                anew: true,
            })
        }
        Err(reason) => Ok(NextCluster {
            cluster: Cluster {
                entry: entry.share()?,
                state: Err(*reason),
            },
            changed: !is_in_error(old, *reason),
            anew: true,
        }),
    }
}

/// The same cluster once more, which shares its trees.
pub(crate) fn share_cluster(cluster: &Cluster) -> Result<Cluster, Memory>
    ensures { IfOk result (λ c. c ≡ cluster.now) }
{
    with_entry(cluster, &cluster.entry)
}

/// A cluster that stands for an entry, and shares the trees of another cluster.
pub(crate) fn with_entry(cluster: &Cluster, entry: &Shared<ClusterEntry>) -> Result<Cluster, Memory>
    ensures { IfOk result (λ c. c ≡ with_entry entry.now cluster.now) }
{
    let entry = entry.share()?;
    match &cluster.state {
        Ok(standing) => {
            let standing = standing.share()?;
            Ok(Cluster {
                entry,
                state: Ok(standing),
            })
        }
        Err(reason) => Ok(Cluster {
            entry,
            state: Err(*reason),
        }),
    }
}

/// The localities of the chosen child of the cluster's serving tree, in their order.
pub(crate) fn served_localities(alloc: Global, cluster: &Cluster) -> Result<Vec<&Locality>, Memory>
    ensures { IfOk result (λ localities. map (λ l. l.now) localities.items ≡ served_localities cluster.now) }
{
    match &cluster.state {
        Ok(standing) => chosen_localities(alloc, standing.get().trees.serving()),
        Err(_) => Ok(Vec::new(alloc)),
    }
}

/// The view of a cluster's trees, or the reason why it has none.
pub(crate) fn view_of(cluster: &Cluster) -> Result<Result<Shared<ShownTree>, Reason>, Memory>
    ensures { IfOk result (λ view. view ≡ view_in cluster.now.state) }
{
    match &cluster.state {
        Ok(standing) => Ok(Ok(standing.get().view.share()?)),
        Err(reason) => Ok(Err(*reason)),
    }
}

/// Adds a cluster to those that read its addresses. Its serving tree reads others than its entry only where another
/// tree waits.
pub(crate) fn add_users(users: &mut Users, cluster: &Cluster, place: u32) -> Result<(), Memory>
    requires { FollowsEntry cluster.now }
    ensures grows { OnOk result (Grows users.old users.new) }
    ensures entry { OnOk result (IfOk cluster.now.entry.state (λ leaves. ReadsLeaves users.new place leaves.leaves)) }
    ensures serving { OnOk result (IfOk cluster.now.state (λ s. ReadsLeaves users.new place s.trees.serving.leaves.leaves)) }
{
    add_entry(users, cluster.entry.get(), place)?;
    add_serving(users, &cluster.state, place)?;
    Ok(())
}

/// Adds a cluster to those that read the addresses of the configuration's leaves.
pub(crate) fn add_entry(users: &mut Users, entry: &ClusterEntry, place: u32) -> Result<(), Memory>
    ensures grows { OnOk result (Grows users.old users.new) }
    ensures entry { OnOk result (IfOk entry.now.state (λ leaves. ReadsLeaves users.new place leaves.leaves)) }
{
    match &entry.state {
        Ok(leaves) => {
            users.add_leaves(leaves.get().leaves.as_slice(), place)?;
            Ok(())
        }
        Err(_) => Ok(()),
    }
}

/// Adds a cluster to those that read the addresses of its serving tree's leaves, where another tree waits.
fn add_serving(
    users: &mut Users,
    state: &Result<Shared<Standing>, Reason>,
    place: u32,
) -> Result<(), Memory>
    ensures grows { OnOk result (Grows users.old users.new) }
    ensures serving { OnOk result (IfOk state.now (λ s. IfSome s.trees.waiting (λ _. ReadsLeaves users.new place s.trees.serving.leaves.leaves))) }
{
    match state {
        Ok(standing) => add_old(users, &standing.get().trees, place),
        Err(_) => Ok(()),
    }
}

/// Adds a cluster to those that read the addresses of the serving tree's leaves, where another tree waits.
fn add_old(users: &mut Users, trees: &Switch<Tree>, place: u32) -> Result<(), Memory>
    ensures grows { OnOk result (Grows users.old users.new) }
    ensures serving { OnOk result (IfSome trees.now.waiting (λ _. ReadsLeaves users.new place trees.now.serving.leaves.leaves)) }
{
    if trees.waiting().is_some() {
        users.add_leaves(trees.serving().leaves(), place)?;
    }
    Ok(())
}
