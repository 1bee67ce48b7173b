//! What is seen of a cluster's trees.
ghost use Rattle.std.specs.Prelude.{◌≡◌, ◌↔◌, IsTrue};

use priority_lb::ChildView;
use weighted_lb::Picker;
use xc_base::{List, Same, Text};

/// A child of a tree as it is seen (gRFC A56).
#[derive(Drop)]
pub struct NamedChild {
    /// The name of its leaf, which is that of the leaf's cluster.
    pub leaf: Text,
    /// Its priority in that leaf, from 0.
    pub priority: u32,
    /// Its state, and what its timers do.
    pub view: ChildView,
}

/// What is seen of a cluster's trees.
#[derive(Drop)]
pub struct TreeView {
    /// The children of the serving tree.
    pub children: List<NamedChild>,
    /// The place of the chosen one among them, from 0.
    pub chosen: u32,
    /// The children of a tree that waits to serve.
    pub waiting: Option<List<NamedChild>>,
    /// The picker of the chosen child.
    pub picker: Picker,
}

impl Same for NamedChild {
    fn same(&self, other: &NamedChild) -> bool {
        self.priority == other.priority
            && same_child(self.view, other.view)
            && self.leaf.same(&other.leaf)
    }
}

impl Same for TreeView {
    fn same(&self, other: &TreeView) -> bool {
        self.chosen == other.chosen
            && self.children.same(&other.children)
            && self.waiting.same(&other.waiting)
            && self.picker.same(&other.picker)
    }
}

/// Whether two children are seen alike.
fn same_child(child: ChildView, other: ChildView) -> bool
    ensures { IsTrue result ↔ (child ≡ other) }
{
    child.there == other.there
        && child.pending == other.pending
        && child.unused == other.unused
        && child.state == other.state
}
