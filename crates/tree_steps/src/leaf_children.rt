//! The children that leaves have.
ghost use Rattle.std.specs.Prelude.{◌≡◌, ◌≤◌, ◌<◌, ◌+◌, ◌^◌, ◌++◌, map, length, All, IfOk, IfSome};
ghost use Rattle.std.specs.List.{range_with_len};
ghost use Rattle.std.specs.List.{position_from};
ghost use Rattle.tree_steps.specs.Reports.{localities_of, priority_count, leaf_children, children_of, name_of};
ghost use Rattle.priority_lb.specs.ChildHistories.{same_name};
ghost use Rattle.priority_lb.specs.ChildLaws.{places};
ghost use Rattle.tree_steps.specs.Lent.{lent, all_lent};

use std::alloc::Global;
use xc_base::{Memory, Same};
use xds_config::{Leaf, Locality};

/// A child of a tree (gRFC A56).
#[derive(Clone, Copy)]
pub struct Child<'a> {
    /// Its leaf.
    pub leaf: &'a Leaf,
    /// Its priority in that leaf, from 0.
    pub priority: u32,
}

/// The localities of a leaf, of which one in error has none.
pub fn localities_of(leaf: &Leaf) -> &[Locality]
    ensures { result.now ≡ localities_of leaf.now }
{
    match &leaf.state {
        Ok(endpoints) => endpoints.get().localities.as_slice(),
        Err(_) => &[],
    }
}

/// How many priorities there are; one where there is no locality.
fn priority_count(localities: &[Locality]) -> u64
    ensures count { result ≡ priority_count localities.now }
    ensures few { result ≤ 2 ^ 32 }
{
    match localities.last() {
        Some(last) => last.priority as u64 + 1,
        None => 1,
    }
}

/// The children of the leaves in their order, or want of memory. A leaf in error, or one without
/// localities, is one child of priority 0.
pub fn children_of<'a>(alloc: Global, leaves: &'a [Leaf]) -> Result<Vec<Child<'a>>, Memory>
    ensures { IfOk result (λ children. all_lent children.items ≡ children_of leaves.now) }
{
    let mut children = Vec::new(alloc);
    for leaf in leaves {
        children = with_children(children, leaf)?;
    }
    Ok(children)
}

/// The children with those of one leaf more.
fn with_children<'a>(mut children: Vec<Child<'a>>, leaf: &'a Leaf) -> Result<Vec<Child<'a>>, Memory>
    ensures { IfOk result (λ all. all_lent all.items ≡ all_lent children.entry.items ++ leaf_children leaf.now) }
{
    for priority in 0..priority_count(localities_of(leaf)) {
        children.push(Child {
            leaf,
            priority: priority as u32,
        })?;
    }
    Ok(children)
}

/// Whether two children have one name.
fn is_named(child: Child<'_>, other: Child<'_>) -> bool
    ensures { result ≡ same_name (name_of (lent child.entry)) (name_of (lent other.entry)) }
{
    child.leaf.name == other.leaf.name && child.priority == other.priority
}

/// The place of the child of the same name.
fn place_in(child: Child<'_>, before: &[Child<'_>]) -> Option<usize>
    ensures { result ≡ position_from (λ c. same_name (name_of (lent child.entry)) (name_of (lent c))) 0 before.now }
{
    before.iter().position(|other| is_named(child, *other))
}

/// The place as a number of 32 bits.
fn short_place(place: Option<usize>) -> Option<u32>
    requires { IfSome place (λ p. p < 2 ^ 32) }
    ensures { result ≡ place }
{
    match place {
        Some(place) => Some(place as u32),
        None => None,
    }
}

/// The places that children had before, each `None` where there was none of its name; or want of memory.
pub fn places_in(
    alloc: Global,
    children: &[Child<'_>],
    before: &[Child<'_>],
) -> Result<Vec<Option<u32>>, Memory>
    requires { length before.now < 2 ^ 32 }
    ensures places { IfOk result (λ from. from.items ≡ places (map name_of (all_lent children.now)) (map name_of (all_lent before.now))) }
    ensures below { IfOk result (λ from. All (λ place. IfSome place (λ p. p < length before.now)) from.items) }
{
    let mut from = Vec::with_capacity(alloc, children.len())?;
    for child in children {
        from.push(short_place(place_in(*child, before)))?;
    }
    Ok(from)
}
