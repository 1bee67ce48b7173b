//! What is seen of a cluster's trees, with its text.
ghost use Rattle.std.specs.Prelude.{◌≡◌, IfOk, string_bytes};
ghost use Rattle.tree_text.specs.TreeText.{trees_text};

use crate::tree_words::push_trees;
use std::alloc::Global;
use std::marker::Model;
use tree_steps::TreeView;
use xc_base::{Memory, Text};

/// What is seen of a cluster's trees, with the text that each report of it has. So what many snapshots share is put into words
/// once. Contracts see what is seen.
#[derive(Drop)]
pub struct ShownTree {
    view: TreeView,
    text: Text,
}

impl Model for ShownTree {
    ghost use Rattle.std.specs.Prelude.{◌≡◌};
    ghost use Rattle.tree_steps.specs.declared.tree_view.TreeView.{TreeView};
    ghost use Rattle.tree_text.specs.TreeText.{trees_text};

    ghost Value = { TreeView };

    ghost view = { λ s. s.view };

    ghost invariant = { λ s. s.text ≡ trees_text s.view };
}

/// The text of trees.
fn text_of(alloc: Global, view: &TreeView) -> Result<Text, Memory>
    ensures { IfOk result (λ text. text ≡ trees_text view.now) }
{
    let mut text = String::new(alloc);
    push_trees(&mut text, view)?;
    Text::from_string(alloc, text)
}

impl ShownTree {
    /// Puts what is seen into words. It fails for want of memory alone.
    pub fn new(alloc: Global, view: TreeView) -> Result<ShownTree, Memory>
        ensures { IfOk result (λ shown. shown ≡ view) }
    {
        let text = text_of(alloc, &view)?;
        Ok(ShownTree { view, text })
    }

    /// What is seen.
    pub fn view(&self) -> &TreeView
        ensures { result.now ≡ self.now }
    {
        &self.view
    }

    /// Its text: the children of the serving tree, then those of the tree that waits.
    pub fn text(&self) -> &Text
        ensures { result.now ≡ trees_text self.now }
    {
        &self.text
    }
}
