//! A tree, and one update of it.
ghost use Rattle.std.specs.Prelude.{◌≡◌, ◌<◌, ◌^◌, Some, [], length, get_or, slice_get, map, option_map, IfOk, OnOk};
ghost use Rattle.xds_config.specs.Configs.{AreLawfulLeaves};
ghost use Rattle.priority_lb.specs.RunningTimers.{first_end};
ghost use Rattle.priority_lb.specs.Step.{carried, fresh, view_of};
ghost use Rattle.priority_lb.specs.ChildLaws.{places};
ghost use Rattle.tree_steps.specs.Lent.{lent, all_lent};
ghost use Rattle.tree_steps.specs.Reports.{name_of, children_of, at_priority, localities_of};
ghost use Rattle.tree_steps.specs.TreePickers.{picker_at};
ghost use Rattle.tree_steps.specs.TreeSteps.{names_before, children_before, followed, stayed, state_of, has_kind, named_children, chosen_localities};

use crate::leaf_children::{Child, children_of, localities_of, places_in};
use crate::pickers::balancing_states;
use crate::reports::at_priority;
use crate::tree_view::NamedChild;
use graceful_switch::Serves;
use priority_lb::{ChildView, Children};
use std::alloc::{AllocError, Global};
use std::collections::BTreeMap;
use std::marker::Model;
use weighted_lb::Picker;
use xc_base::{Address, List, Memory, Shared, State, Time};
use xds_config::{Leaf, Leaves, Locality};

/// A tree: the leaves that it followed last, its children, and the place of the chosen one. Contracts see
/// it as these. There are fewer than 2^32 children, and at least one.
#[derive(Drop)]
pub struct Tree {
    leaves: Shared<Leaves>,
    children: Children,
    count: u32,
    chosen: u32,
}

impl Model for Tree {
    ghost use Rattle.std.specs.Prelude.{◌≡◌, ◌<◌, ◌^◌, length};
    ghost use Rattle.xds_config.specs.Configs.{AreLawfulLeaves};
    ghost use Rattle.tree_steps.specs.Reports.{children_of};
    ghost use Rattle.tree_steps.specs.TreeSteps.{TreeFacts};

    ghost Value = { TreeFacts };

    ghost view = { λ t. record { leaves = t.leaves; children = t.children; chosen = t.chosen } };

    ghost invariant = { λ t. AreLawfulLeaves t.leaves × (length t.children ≡ length (children_of t.leaves.leaves)) × (t.chosen < length t.children) × (t.count ≡ length t.children) × (length t.children < 2 ^ 32) };
}

/// A tree after an update.
#[derive(Drop)]
pub struct NextTree {
    pub tree: Tree,
    /// The picker of its chosen child.
    pub picker: Picker,
}

impl Serves for Tree {
    ghost states = { state_of };

    fn state(&self) -> State {
        self.children.view(self.chosen).state
    }
}

impl Tree {
    /// Its children with their leaves.
    fn list_children(&self, alloc: Global) -> Result<Vec<Child<'_>>, Memory>
        ensures children { IfOk result (λ named. all_lent named.items ≡ children_of self.now.leaves.leaves) }
        ensures count { IfOk result (λ named. length named.items ≡ length self.now.children) }
        ensures few { OnOk result (length self.now.children < 2 ^ 32) }
        ensures chosen { OnOk result (self.now.chosen < length self.now.children) }
        ensures lawful { OnOk result (AreLawfulLeaves self.now.leaves) }
    {
        children_of(alloc, self.leaves.get().leaves.as_slice())
    }

    /// How many children it has.
    fn count(&self) -> u32
        ensures { result ≡ length self.now.children }
    {
        self.count
    }

    /// The place of the chosen child, from 0.
    pub fn chosen(&self) -> u32
        ensures { result ≡ self.now.chosen }
    {
        self.chosen
    }

    /// The leaves that it followed last.
    pub fn leaves(&self) -> &[Leaf]
        ensures { result.now ≡ self.now.leaves.leaves }
    {
        self.leaves.get().leaves.as_slice()
    }

    /// What is seen of the child at a place.
    fn view(&self, place: u32) -> ChildView
        requires { place < length self.now.children }
        ensures { result ≡ view_of (get_or self.now.children place fresh) }
    {
        self.children.view(place)
    }
}
/// How many children there are, where places of 32 bits name them.
fn child_count(children: &[Child<'_>]) -> Result<u32, Memory>
    ensures count { IfOk result (λ count. count ≡ length children.now) }
    ensures few { OnOk result (length children.now < 2 ^ 32) }
{
    if children.len() > u32::MAX as usize {
        return Err(AllocError);
    }
    Ok(children.len() as u32)
}

/// The children that a tree had, each at its new place, among new ones.
fn carried_children(alloc: Global, children: &[Child<'_>], old: &Tree) -> Result<Children, Memory>
    requires some { 0 < length children.now }
    requires few { length children.now < 2 ^ 32 }
    ensures { IfOk result (λ begun. begun ≡ carried (places (map name_of (all_lent children.now)) (names_before (Some old.now))) old.now.children) }
{
    let before = old.list_children(alloc)?;
    let from = places_in(alloc, children, &before)?;
    old.children.carried(&from)
}

/// The children of a tree before its update.
fn begin(alloc: Global, children: &[Child<'_>], old: Option<&Tree>) -> Result<Children, Memory>
    requires { 0 < length children.now }
    ensures { IfOk result (λ begun. begun ≡ carried (places (map name_of (all_lent children.now)) (names_before (option_map (λ r. r.now) old.entry))) (children_before (option_map (λ r. r.now) old.entry))) }
{
    let count = child_count(children)?;
    match old {
        Some(tree) => carried_children(alloc, children, tree),
        None => new_children(alloc, children, count),
    }
}

/// Children that no update has seen.
fn new_children(alloc: Global, children: &[Child<'_>], count: u32) -> Result<Children, Memory>
    requires some { 0 < length children.now }
    requires count { count ≡ length children.now }
    ensures { IfOk result (λ begun. begun ≡ carried (places (map name_of (all_lent children.now)) []) []) }
{
    let fresh = Children::new(alloc, count)?;
    Ok(fresh)
}

/// A tree after an update at which it follows the leaves, or want of memory; none before is a new one.
pub fn follow(
    alloc: Global,
    reports: &BTreeMap<Address, State>,
    now: Time,
    leaves: &Shared<Leaves>,
    old: Option<&Tree>,
) -> Result<NextTree, Memory>
    requires { AreLawfulLeaves leaves.now }
    ensures tree { IfOk result (λ next. next.tree ≡ followed now reports.now.entries leaves.now (option_map (λ r. r.now) old.entry)) }
    ensures picker { IfOk result (λ next. next.picker ≡ picker_at reports.now.entries leaves.now.leaves next.tree.chosen) }
{
    let named = children_of(alloc, leaves.get().leaves.as_slice())?;
    let mut told = balancing_states(alloc, reports, &named)?;
    let mut children = begin(alloc, &named, old)?;
    let chosen = children.update(&told.states, now);
    let picker = told.pickers.swap_remove(chosen as usize);
    let tree = Tree {
        leaves: leaves.share()?,
        children,
        count: child_count(&named)?,
        chosen,
    };
    Ok(NextTree { tree, picker })
}

/// A tree after an update at which it stays with its leaves, or want of memory.
pub fn stay(
    alloc: Global,
    reports: &BTreeMap<Address, State>,
    now: Time,
    old: &Tree,
) -> Result<NextTree, Memory>
    ensures tree { IfOk result (λ next. next.tree ≡ stayed now reports.now.entries old.now) }
    ensures picker { IfOk result (λ next. next.picker ≡ picker_at reports.now.entries old.now.leaves.leaves next.tree.chosen) }
{
    follow(alloc, reports, now, &old.leaves, Some(old))
}

/// Whether a tree has the kind of the leaves: of one cluster, or of an aggregate (gRFC A37).
pub fn has_kind(leaves: &Leaves, tree: &Tree) -> bool
    ensures { result ≡ has_kind leaves.now tree.now }
{
    tree.leaves.get().aggregate == leaves.aggregate
}

/// A child with its name.
fn named_child(child: Child<'_>, view: ChildView) -> Result<NamedChild, Memory>
    ensures { IfOk result (λ named. named ≡ record { leaf = (lent child.entry).0.name; priority = (lent child.entry).1; view = view }) }
{
    Ok(NamedChild {
        leaf: child.leaf.name.clone()?,
        priority: child.priority,
        view,
    })
}

/// The children of a tree with their names, or want of memory.
pub fn named_children(alloc: Global, tree: &Tree) -> Result<List<NamedChild>, Memory>
    ensures { IfOk result (λ children. children ≡ named_children tree.now) }
{
    let children = tree.list_children(alloc)?;
    let mut named = List::from_vec(Vec::with_capacity(alloc, children.len())?);
    for (place, child) in children.iter().enumerate() {
        named.push(named_child(*child, tree.view(place as u32))?)?;
    }
    Ok(named)
}

/// The localities of a child.
fn child_localities<'a>(alloc: Global, child: Child<'a>) -> Result<Vec<&'a Locality>, Memory>
    ensures { IfOk result (λ localities. map (λ l. l.now) localities.items ≡ at_priority (lent child.entry).1 (localities_of (lent child.entry).0)) }
{
    at_priority(alloc, child.priority, localities_of(child.leaf))
}

/// The localities of the chosen child of a tree (Envoy's Locality), in their order: a part of the child's picker names
/// one by its place here, from 0. It answers want of memory alone.
pub fn chosen_localities(alloc: Global, tree: &Tree) -> Result<Vec<&Locality>, Memory>
    ensures { IfOk result (λ localities. map (λ l. l.now) localities.items ≡ chosen_localities tree.now) }
{
    let children = tree.list_children(alloc)?;
    let localities = child_localities(alloc, children[tree.chosen() as usize])?;
    Ok(localities)
}

/// When the first timer of a tree that runs ends, in milliseconds, or the last of all times where none runs. It takes no memory.
pub fn first_end(tree: &Tree) -> Time
    ensures { result.0 ≡ first_end tree.now.children }
{
    tree.children.first_end()
}
