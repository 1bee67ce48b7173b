//! A bootstrap, read.
ghost use Rattle.std.specs.Prelude.{◌≡◌, IfOk};
ghost use Rattle.serde_json.specs.View.{view};
ghost use Rattle.xds_bootstrap.specs.Authorities.{AreAuthorities};
ghost use Rattle.xds_bootstrap.specs.Document.{Gives, all_entries, bootstrap_in, default_entry, document_of, read_bootstrap};
ghost use Rattle.xds_bootstrap.specs.BootViews.{seen_text, seen_value};

use crate::authority_entries::entries;
use crate::boot_fault::BootFault;
use crate::bootstrap::{AuthorityEntry, Bootstrap};
use crate::members::{object_member, text_member};
use crate::nodes::node;
use crate::servers::servers;
use serde_json::Value;
use std::alloc::Global;
use std::str;
use xc_base::{List, Memory, Text};

/// The entry of the default authority, for which an empty template counts as none.
fn default_entry(
    alloc: Global,
    server_uri: Text,
    text: Option<&str>,
) -> Result<AuthorityEntry, Memory>
    ensures { IfOk result (λ e. e ≡ default_entry server_uri (seen_text text.entry)) }
{
    let template = match text {
        Some(text) if !text.is_empty() => text,
        _ => "%s",
    };
    let template = Text::from_str(alloc, template)?;
    Ok(AuthorityEntry {
        name: Text::new(),
        server_uri,
        template,
    })
}

/// The entries of the default authority and of all named ones.
#[tactic(auto, unfolding(crate::specs::Document::all_entries))]
fn all_entries(
    alloc: Global,
    server_uri: Text,
    text: Option<&str>,
    authorities: Option<&Value>,
) -> Result<List<AuthorityEntry>, BootFault>
    ensures gives { Gives (λ es. es) result (all_entries server_uri (seen_text text.entry) (seen_value authorities.entry)) }
    ensures lawful { IfOk result AreAuthorities }
{
    let default = default_entry(alloc, server_uri, text)?;
    entries(alloc, default, authorities)
}

/// The bootstrap that an object is, whose members are read in the order of the clauses.
fn bootstrap_in(alloc: Global, document: &Value) -> Result<Bootstrap, BootFault>
    ensures gives { Gives (λ b. b) result (bootstrap_in (view document.now)) }
    ensures lawful { IfOk result (λ b. AreAuthorities b.authorities) }
{
    let server_uri = servers(alloc, document.get("xds_servers"))?;
    let node = node(alloc, document)?;
    let template = "client_default_listener_resource_name_template";
    let text = text_member(alloc, Some(document), template)?;
    let authorities = object_member(alloc, Some(document), "authorities")?;
    let authorities = all_entries(alloc, server_uri, text, authorities)?;
    Ok(Bootstrap { authorities, node })
}

/// The JSON document that the bytes are.
#[tactic(auto, unfolding(crate::specs::Document::document_of))]
fn document(alloc: Global, bytes: &[u8]) -> Result<Value, BootFault>
    ensures { Gives view result (document_of bytes.now) }
{
    let Ok(text) = str::from_utf8(bytes) else {
        return Err(BootFault::NotJson);
    };
    match Value::from_str(alloc, text) {
        Ok(document) => Ok(document),
        Err(fault) if fault.is_memory() => Err(BootFault::Memory),
        Err(_) => Err(BootFault::NotJson),
    }
}

/// The bootstrap that the bytes are (gRFC A27, A47): entry 0 is the default authority, and the named ones
/// stand after it in strictly rising order of their bytes. The members are read in this order, and the
/// first fault counts: `xds_servers`, `node`, the default template, `authorities`. It answers `NotJson`
/// where the bytes aren't a JSON object, `Missing` and `WrongKind` with the name of the member at fault,
/// and `Memory` where there was no memory. Members that it doesn't know are passed over.
#[tactic(auto, unfolding(crate::specs::Document::read_bootstrap))]
pub fn read(alloc: Global, bytes: &[u8]) -> Result<Bootstrap, BootFault>
    ensures gives { Gives (λ b. b) result (read_bootstrap bytes.now) }
    ensures lawful { IfOk result (λ b. AreAuthorities b.authorities) }
{
    let document = document(alloc, bytes)?;
    if !document.is_object() {
        return Err(BootFault::NotJson);
    }
    bootstrap_in(alloc, &document)
}
