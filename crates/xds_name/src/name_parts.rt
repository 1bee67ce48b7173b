//! The parts of an `xdstp:` name.
ghost use Rattle.std.specs.Prelude.{◌≡◌, option_map};
ghost use Rattle.xds_name.specs.Names.{head_of, parts_from, parts_of};
ghost use Rattle.xds_name.specs.NameViews.{seen_parts};

use crate::name_texts::{cut_at, rest_after};

/// A name's authority and the type of its resource.
#[derive(Clone, Copy)]
pub struct Parts<'a> {
    pub authority: &'a str,
    pub resource: &'a str,
}

/// What stands before the parameters of a name.
fn head(text: &str) -> &str
    ensures { result.now ≡ head_of text.now }
{
    match text.split_once('?') {
        Some((head, _)) => head,
        None => text,
    }
}

/// The parts of what stands after `xdstp://`.
fn parts_from(path: &str) -> Option<Parts<'_>>
    ensures { seen_parts result ≡ parts_from path.now }
{
    let (authority, rest) = cut_at('/', path)?;
    let (resource, _) = cut_at('/', rest)?;
    Some(Parts {
        authority,
        resource,
    })
}

/// The parts of a name; None where it hasn't the form of an `xdstp:` name.
#[tactic(auto, unfolding(crate::specs::Names::parts_of))]
pub fn parts_in(text: &str) -> Option<Parts<'_>>
    ensures { seen_parts result ≡ parts_of text.now }
{
    parts_from(rest_after("xdstp://", head(text))?)
}
