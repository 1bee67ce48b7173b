//! The texts of clusters' trees.
ghost use Rattle.std.specs.Prelude.{◌≡◌, ◌++◌, ◌-◌, OnOk, decimal, length, position, string_bytes, unwrap_or};
ghost use Rattle.tree_text.specs.TreeText.{before_child, child_text, children_text, if_so, is_near, is_trying, state_word, trees_text, view_text, waiting_place, waiting_text};

use crate::escapes::push_escaped;
use itoa::Buffer;
use priority_lb::ChildView;
use tree_steps::{NamedChild, TreeView};
use xc_base::{List, Memory, State};

/// Adds a number in decimal digits.
fn push_number(out: &mut String, number: u32) -> Result<(), Memory>
    ensures { OnOk result (string_bytes out.new ≡ string_bytes out.old ++ decimal number) }
{
    let mut digits = Buffer::new();
    out.push_str(digits.format(number))
}

/// The word of a state.
pub fn state_word(state: State) -> &'static str
    ensures { result.now ≡ state_word state }
{
    match state {
        State::Connecting => "connecting",
        State::Ready => "ready",
        State::Failing => "failing",
    }
}

/// A word that stands only where it holds.
fn if_so(holds: bool, word: &'static str) -> &'static str
    ensures { result.now ≡ if_so holds word.now }
{
    if holds { word } else { "" }
}

/// Adds the state of a child with its marks.
fn push_view(out: &mut String, view: ChildView) -> Result<(), Memory>
    ensures { OnOk result (string_bytes out.new ≡ string_bytes out.old ++ view_text view) }
{
    if !view.there {
        return out.push_str("none");
    }
    let state = state_word(view.state);
    let pending = if_so(view.pending, "+");
    let unused = if_so(view.unused, "~");
    out.push_str(state)?;
    out.push_str(pending)?;
    out.push_str(unused)
}

/// Adds a child: its leaf, its priority, and its state with its marks.
#[tactic(auto, unfolding(crate::specs::TreeText::child_text))]
fn push_child(out: &mut String, child: &NamedChild) -> Result<(), Memory>
    ensures { OnOk result (string_bytes out.new ≡ string_bytes out.old ++ child_text child.now) }
{
    push_escaped(out, &child.leaf)?;
    out.push_str("/")?;
    push_number(out, child.priority)?;
    out.push_str(":")?;
    push_view(out, child.view)
}

/// What stands before the child of this place.
fn before_child(chosen: usize, place: usize) -> &'static str
    ensures { result.now ≡ before_child chosen place }
{
    match (place == 0, place == chosen) {
        (true, true) => "*",
        (true, false) => "",
        (false, true) => ",*",
        (false, false) => ",",
    }
}

/// Adds the children of a tree by the place of the chosen one.
#[tactic(auto, unfolding(crate::specs::TreeText::children_from))]
fn push_children(out: &mut String, chosen: usize, children: &[NamedChild]) -> Result<(), Memory>
    ensures { OnOk result (string_bytes out.new ≡ string_bytes out.old ++ children_text chosen children.now) }
{
    for (place, child) in children.iter().enumerate() {
        out.push_str(before_child(chosen, place))?;
        push_child(out, child)?;
    }
    Ok(())
}

/// Whether a child can be chosen at once.
fn is_near(view: ChildView) -> bool
    ensures { result ≡ is_near view }
{
    view.there && (matches!(view.state, State::Ready) || view.pending)
}

/// Whether a child is there and CONNECTING.
fn is_trying(view: ChildView) -> bool
    ensures { result ≡ is_trying view }
{
    view.there && matches!(view.state, State::Connecting)
}

/// The first child that can be chosen at once.
fn near_place(children: &[NamedChild]) -> Option<usize>
    ensures { result ≡ position (λ c. is_near c.view) children.now }
{
    children.iter().position(|child| is_near(child.view))
}

/// The first child that is there and CONNECTING.
fn trying_place(children: &[NamedChild]) -> Option<usize>
    ensures { result ≡ position (λ c. is_trying c.view) children.now }
{
    children.iter().position(|child| is_trying(child.view))
}

/// The place of the last child; 0 where there is none.
fn last_place(children: &[NamedChild]) -> usize
    ensures { result ≡ length children.now - 1 }
{
    children.len().saturating_sub(1)
}

/// The first child that is there and CONNECTING, else the last one.
fn trying_or_last(children: &[NamedChild]) -> usize
    ensures { result ≡ unwrap_or (position (λ c. is_trying c.view) children.now) (length children.now - 1) }
{
    match trying_place(children) {
        Some(place) => place,
        None => last_place(children),
    }
}

/// The place of the chosen child of a tree that waits.
fn waiting_place(children: &[NamedChild]) -> usize
    ensures { result ≡ waiting_place children.now }
{
    match near_place(children) {
        Some(place) => place,
        None => trying_or_last(children),
    }
}

/// Adds the children of the tree that waits, where one does.
fn push_waiting(out: &mut String, waiting: &Option<List<NamedChild>>) -> Result<(), Memory>
    ensures { OnOk result (string_bytes out.new ≡ string_bytes out.old ++ waiting_text waiting.now) }
{
    match waiting {
        None => Ok(()),
        Some(children) => {
            let chosen = waiting_place(children.as_slice());
            out.push_str("|")?;
            push_children(out, chosen, children.as_slice())
        }
    }
}

/// Adds the trees of a cluster: the children of the serving one, then those of the one that waits.
pub(crate) fn push_trees(out: &mut String, tree: &TreeView) -> Result<(), Memory>
    ensures { OnOk result (string_bytes out.new ≡ string_bytes out.old ++ trees_text tree.now) }
{
    push_children(out, tree.chosen as usize, tree.children.as_slice())?;
    push_waiting(out, &tree.waiting)
}
