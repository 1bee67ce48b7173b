//! The node of a bootstrap.
ghost use Rattle.std.specs.Prelude.{◌≡◌, [], Some, unwrap_or, IfOk};
ghost use Rattle.serde_json.specs.View.{view};
ghost use Rattle.xds_bootstrap.specs.Document.{Gives, node_of};
ghost use Rattle.xds_bootstrap.specs.BootViews.{seen_text, seen_value};

use crate::boot_fault::BootFault;
use crate::members::{object_member, text_member};
use serde_json::Value;
use std::alloc::Global;
use xc_base::{Memory, Node, Text};

/// A text, or the empty one where there is none.
fn text_or_empty(alloc: Global, text: Option<&str>) -> Result<Text, Memory>
    ensures { IfOk result (λ t. t ≡ unwrap_or (seen_text text.entry) []) }
{
    match text {
        Some(text) => Text::from_str(alloc, text),
        None => Ok(Text::new()),
    }
}

/// The client's node in a document, of which a text is empty where it isn't there (gRFC A27).
#[tactic(auto, unfolding(crate::specs::Document::node_of))]
pub fn node(alloc: Global, document: &Value) -> Result<Node, BootFault>
    ensures { Gives (λ n. n) result (node_of (Some (view document.now))) }
{
    let node = object_member(alloc, Some(document), "node")?;
    let id = text_member(alloc, node, "id")?;
    let cluster = text_member(alloc, node, "cluster")?;
    let locality = object_member(alloc, node, "locality")?;
    let region = text_member(alloc, locality, "region")?;
    let zone = text_member(alloc, locality, "zone")?;
    let sub_zone = text_member(alloc, locality, "sub_zone")?;
    Ok(Node {
        id: text_or_empty(alloc, id)?,
        cluster: text_or_empty(alloc, cluster)?,
        region: text_or_empty(alloc, region)?,
        zone: text_or_empty(alloc, zone)?,
        sub_zone: text_or_empty(alloc, sub_zone)?,
    })
}
