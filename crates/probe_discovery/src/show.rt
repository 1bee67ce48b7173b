//! What a response says, as text.
use crate::show_fault::Fault;
use proto_discovery::{AnyValue, Response};
use std::alloc::Global;

/// The parts of a response, one a line, with texts and bytes in hexadecimal: its version, nonce and type
/// URL, and of each resource the type URL and the bytes.
pub fn response_text(alloc: Global, response: &Response) -> Result<String, Fault> {
    let mut out = String::new(alloc);
    push_part(alloc, &mut out, "version", response.version.as_str())?;
    push_part(alloc, &mut out, "nonce", response.nonce.as_str())?;
    push_part(alloc, &mut out, "type_url", response.type_url.as_str())?;
    for resource in response.resources.as_slice() {
        push_resource(alloc, &mut out, resource)?;
    }
    Ok(out)
}

/// Adds the line of a part that is a text.
fn push_part(alloc: Global, out: &mut String, word: &str, text: &str) -> Result<(), Fault> {
    let digits = hex::encode(alloc, text.as_bytes())?;
    let line = format!(in alloc; "{word} {digits}\n")?;
    out.push_str(line.as_str())?;
    Ok(())
}

/// Adds the line of a resource.
fn push_resource(alloc: Global, out: &mut String, resource: &AnyValue) -> Result<(), Fault> {
    let url = hex::encode(alloc, resource.type_url.as_str().as_bytes())?;
    let value = hex::encode(alloc, resource.value.as_slice())?;
    let line = format!(in alloc; "resource {url} {value}\n")?;
    out.push_str(line.as_str())?;
    Ok(())
}
