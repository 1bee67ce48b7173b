//! The named authorities of a bootstrap.
ghost use Rattle.std.specs.Prelude.{◌≡◌, ◌==◌, ◌∷◌, [], Some, IfOk, map, option_and_then, option_map, string_bytes};
ghost use Rattle.std.specs.List.{starts_with};
ghost use Rattle.serde_json.specs.Find.{as_object};
ghost use Rattle.serde_json.specs.View.{members_view, view};
ghost use Rattle.xds_bootstrap.specs.Authorities.{AreAuthorities};
ghost use Rattle.xds_bootstrap.specs.Document.{Gives, entries_from, entries_of, entry_in, entry_of, prefix_of, template_in, template_with};
ghost use Rattle.xds_bootstrap.specs.BootViews.{seen_members, seen_text, seen_value};

use crate::boot_fault::BootFault;
use crate::bootstrap::{AuthorityEntry, MOST};
use crate::members::text_member;
use crate::servers::own_servers;
use serde_json::{Map, Value};
use std::alloc::{AllocError, Global};
use xc_base::{List, Text};

/// What the names of an authority begin with.
fn name_prefix(alloc: Global, authority: &str) -> Result<String, AllocError>
    ensures { IfOk result (λ s. string_bytes s ≡ prefix_of authority.now) }
{
    format!(in alloc; "xdstp://{authority}/")
}

/// Whether a text begins with another.
fn begins_with(text: &str, prefix: &str) -> bool
    ensures { result ≡ starts_with ◌==◌ text.now prefix.now }
{
    text.starts_with(prefix)
}

/// The template that an authority has of its own, which has to begin with this prefix.
fn own_template(alloc: Global, prefix: &str, text: &str) -> Result<Text, BootFault>
    ensures { Gives (λ t. t) result (template_with prefix.now text.now) }
{
    if begins_with(text, prefix) {
        Ok(Text::from_str(alloc, text)?)
    } else {
        let name = "client_listener_resource_name_template";
        Err(BootFault::WrongKind(Text::from_str(alloc, name)?))
    }
}

/// The template of an authority: its own, or the one that names its listeners by their type.
fn template(alloc: Global, authority: &str, text: Option<&str>) -> Result<Text, BootFault>
    ensures { Gives (λ t. t) result (template_in authority.now (seen_text text.entry)) }
{
    let prefix = name_prefix(alloc, authority)?;
    match text {
        Some(text) => own_template(alloc, &prefix, text),
        None => {
            let text = format!(in alloc; "{prefix}envoy.config.listener.v3.Listener/%s")?;
            Ok(Text::from_string(alloc, text)?)
        }
    }
}

/// The entry of an authority whose member is an object.
fn entry_in(
    alloc: Global,
    top: &Text,
    name: &str,
    value: &Value,
) -> Result<AuthorityEntry, BootFault>
    ensures { Gives (λ e. e) result (entry_in top.now name.now (view value.now)) }
{
    let server_uri = own_servers(alloc, top, value.get("xds_servers"))?;
    let text = text_member(alloc, Some(value), "client_listener_resource_name_template")?;
    let template = template(alloc, name, text)?;
    let name = Text::from_str(alloc, name)?;
    Ok(AuthorityEntry {
        name,
        server_uri,
        template,
    })
}

/// The entry of an authority, whose member has to be an object.
#[tactic(auto, unfolding(crate::specs::Document::entry_of))]
fn entry(alloc: Global, top: &Text, name: &str, value: &Value) -> Result<AuthorityEntry, BootFault>
    ensures { Gives (λ e. e) result (entry_of top.now name.now (view value.now)) }
{
    if !value.is_object() {
        return Err(BootFault::WrongKind(Text::from_str(alloc, "authorities")?));
    }
    entry_in(alloc, top, name, value)
}

/// The members of an object one by one, in the order of their names' bytes.
fn pairs(alloc: Global, members: &Map<String, Value>) -> Result<Vec<(&String, &Value)>, AllocError>
    ensures { IfOk result (λ v. map (λ p. (p.0.now, p.1.now)) v.items ≡ members.now.entries) }
{
    members.iter().collect(alloc)
}

/// The default entry, and after it one for each member.
fn entries_from(
    alloc: Global,
    default: AuthorityEntry,
    members: &[(&String, &Value)],
) -> Result<List<AuthorityEntry>, BootFault>
    ensures gives { Gives (λ es. es) result (entries_from (default ∷ []) default.server_uri (seen_members members.now)) }
    ensures names { IfOk result (λ es. map (λ e. e.name) es ≡ default.name ∷ map (λ p. string_bytes p.0.now) members.now) }
{
    let top = default.server_uri.clone()?;
    let mut entries = List::new(alloc);
    entries.push(default)?;
    for (name, value) in members {
        let entry = entry(alloc, &top, name, value)?;
        entries.push(entry)?;
    }
    Ok(entries)
}

/// The members of `authorities`, if it is there.
fn members(authorities: Option<&Value>) -> Option<&Map<String, Value>>
    ensures { option_map (λ m. members_view m.now.entries) result ≡ option_and_then as_object (seen_value authorities.entry) }
{
    authorities?.as_object()
}

/// The default entry, and after it one for each authority, in the order of their names' bytes (gRFC
/// A47). More than 65,534 are `WrongKind`.
pub fn entries(
    alloc: Global,
    default: AuthorityEntry,
    authorities: Option<&Value>,
) -> Result<List<AuthorityEntry>, BootFault>
    ensures gives { Gives (λ es. es) result (entries_of default (seen_value authorities.entry)) }
    ensures lawful { default.name ≡ [] → IfOk result AreAuthorities }
{
    let Some(members) = members(authorities) else {
        return entries_from(alloc, default, &[]);
    };
    if members.len() > MOST {
        let name = Text::from_str(alloc, "authorities")?;
        return Err(BootFault::WrongKind(name));
    }
    let members = pairs(alloc, members)?;
    entries_from(alloc, default, &members)
}
