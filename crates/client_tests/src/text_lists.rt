//! Lists of texts, and a node.
use std::alloc::Global;
use xc_base::{List, Memory, Node, Text};

/// A list of these texts.
pub(crate) fn texts(alloc: Global, texts: &[&str]) -> Result<List<Text>, Memory> {
    let mut list = List::new(alloc);
    for text in texts {
        list.push(Text::from_str(alloc, text)?)?;
    }
    Ok(list)
}

/// A node without names.
pub(crate) fn node() -> Node {
    Node {
        id: Text::new(),
        cluster: Text::new(),
        region: Text::new(),
        zone: Text::new(),
        sub_zone: Text::new(),
    }
}
