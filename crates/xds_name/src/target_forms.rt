//! The forms of a target.
ghost use Rattle.std.specs.Prelude.{◌≡◌};
ghost use Rattle.xds_name.specs.Targets.{target_of, target_parts};
ghost use Rattle.xds_name.specs.NameViews.{seen_form};

use crate::name_texts::{cut_at, rest_after};

/// The authority of a target, if it names one, and its name.
#[derive(Clone, Copy)]
pub struct Form<'a> {
    pub authority: Option<&'a str>,
    pub name: &'a str,
}

/// The form of an authority, of which an empty one is none, and a name; None where the name is empty.
fn make_form<'a>(authority: &'a str, name: &'a str) -> Option<Form<'a>>
    ensures { seen_form result ≡ target_parts (authority.now, name.now) }
{
    if name.is_empty() {
        return None;
    }
    let authority = if authority.is_empty() {
        None
    } else {
        Some(authority)
    };
    Some(Form { authority, name })
}

/// The form of a target: `xds:name`, `xds:///name` or `xds://authority/name`. None where it has none
/// of these.
#[tactic(auto, unfolding(crate::specs::Targets::target_of))]
pub fn target_form(target: &str) -> Option<Form<'_>>
    ensures { seen_form result ≡ target_of target.now }
{
    let rest = rest_after("xds:", target)?;
    match rest_after("//", rest) {
        None => make_form("", rest),
        Some(more) => {
            let (authority, name) = cut_at('/', more)?;
            make_form(authority, name)
        }
    }
}
