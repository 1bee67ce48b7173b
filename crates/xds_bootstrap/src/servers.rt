//! The servers of a bootstrap, of which the first is used.
ghost use Rattle.std.specs.Prelude.{◌≡◌};
ghost use Rattle.serde_json.specs.View.{view};
ghost use Rattle.xds_bootstrap.specs.Document.{Gives, is_empty_list, own_servers, servers_of, uri_of};
ghost use Rattle.xds_bootstrap.specs.BootViews.{seen_value};

use crate::boot_fault::BootFault;
use serde_json::Value;
use std::alloc::Global;
use xc_base::Text;

/// The address of a server, which has to be a text.
fn uri(alloc: Global, value: Option<&Value>) -> Result<Text, BootFault>
    ensures { Gives (λ t. t) result (uri_of (seen_value value.entry)) }
{
    let Some(value) = value else {
        return Err(BootFault::Missing(Text::from_str(alloc, "server_uri")?));
    };
    match value.as_str() {
        Some(text) => Ok(Text::from_str(alloc, text)?),
        None => Err(BootFault::WrongKind(Text::from_str(alloc, "server_uri")?)),
    }
}

/// The address of the first server of a list. `Missing` where there is no list or no server in it, and
/// `WrongKind` where one of them is of another kind.
#[tactic(auto, unfolding(crate::specs::Document::servers_of))]
pub fn servers(alloc: Global, value: Option<&Value>) -> Result<Text, BootFault>
    ensures { Gives (λ t. t) result (servers_of (seen_value value.entry)) }
{
    let Some(value) = value else {
        return Err(BootFault::Missing(Text::from_str(alloc, "xds_servers")?));
    };
    let Some(list) = value.as_array() else {
        return Err(BootFault::WrongKind(Text::from_str(alloc, "xds_servers")?));
    };
    let Some(first) = list.first() else {
        return Err(BootFault::Missing(Text::from_str(alloc, "xds_servers")?));
    };
    if !first.is_object() {
        return Err(BootFault::WrongKind(Text::from_str(alloc, "xds_servers")?));
    }
    uri(alloc, first.get("server_uri"))
}

/// Whether a value is a list without members.
fn is_empty_list(value: &Value) -> bool
    ensures { result ≡ is_empty_list (view value.now) }
{
    match value.as_array() {
        Some(list) => list.as_slice().is_empty(),
        None => false,
    }
}

/// The address of the first of an authority's own servers, or the top one's where it has none.
pub fn own_servers(alloc: Global, top: &Text, value: Option<&Value>) -> Result<Text, BootFault>
    ensures { Gives (λ t. t) result (own_servers top.now (seen_value value.entry)) }
{
    match value {
        None => Ok(top.clone()?),
        Some(list) => {
            if is_empty_list(list) {
                Ok(top.clone()?)
            } else {
                servers(alloc, value)
            }
        }
    }
}
