//! Members of a JSON object.
ghost use Rattle.std.specs.Prelude.{◌≡◌};
ghost use Rattle.xds_bootstrap.specs.Document.{Gives, member_of, object_member, text_member};
ghost use Rattle.xds_bootstrap.specs.BootViews.{seen_text, seen_value};

use crate::boot_fault::BootFault;
use serde_json::Value;
use std::alloc::Global;
use xc_base::Text;

/// A member of an object, if both are there.
fn member<'a>(holder: Option<&'a Value>, name: &str) -> Option<&'a Value>
    ensures { seen_value result ≡ member_of (seen_value holder.entry) name.now }
{
    holder?.get(name)
}

/// An optional member that is a text. `WrongKind` where it is there and no text.
#[tactic(auto, unfolding(crate::specs::Document::text_member))]
pub fn text_member<'a>(
    alloc: Global,
    holder: Option<&'a Value>,
    name: &str,
) -> Result<Option<&'a str>, BootFault>
    ensures { Gives seen_text result (text_member (seen_value holder.entry) name.now) }
{
    match member(holder, name) {
        None => Ok(None),
        Some(value) => match value.as_str() {
            Some(text) => Ok(Some(text)),
            None => Err(BootFault::WrongKind(Text::from_str(alloc, name)?)),
        },
    }
}

/// An optional member that is an object. `WrongKind` where it is there and no object.
#[tactic(auto, unfolding(crate::specs::Document::object_member))]
pub fn object_member<'a>(
    alloc: Global,
    holder: Option<&'a Value>,
    name: &str,
) -> Result<Option<&'a Value>, BootFault>
    ensures { Gives seen_value result (object_member (seen_value holder.entry) name.now) }
{
    match member(holder, name) {
        None => Ok(None),
        Some(value) => {
            if value.is_object() {
                Ok(Some(value))
            } else {
                Err(BootFault::WrongKind(Text::from_str(alloc, name)?))
            }
        }
    }
}
