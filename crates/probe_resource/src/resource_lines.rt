//! Written resources.
use crate::probe_fault::Fault;
use proto_discovery::AnyValue;
use std::alloc::Global;
use std::str;
use xc_base::{Kind, List, Text};

/// The kind and the resource of a line: the word of the kind, the type URL and the value, these two in
/// hexadecimal, parted by spaces.
pub fn resource(alloc: Global, line: &str) -> Result<(Kind, AnyValue), Fault> {
    let Some((word, rest)) = line.split_once(' ') else {
        return Err(Fault::Line);
    };
    let Some((url, value)) = rest.split_once(' ') else {
        return Err(Fault::Line);
    };
    let any = AnyValue {
        type_url: text(alloc, url)?,
        value: List::from_vec(hex::decode(alloc, value.as_bytes())?),
    };
    Ok((kind(word)?, any))
}

fn kind(word: &str) -> Result<Kind, Fault> {
    match word {
        "listener" => Ok(Kind::Listener),
        "route" => Ok(Kind::Route),
        "cluster" => Ok(Kind::Cluster),
        "endpoint" => Ok(Kind::Endpoint),
        _ => Err(Fault::Line),
    }
}

fn text(alloc: Global, digits: &str) -> Result<Text, Fault> {
    let bytes = hex::decode(alloc, digits.as_bytes())?;
    match str::from_utf8(&bytes) {
        Ok(text) => Ok(Text::from_str(alloc, text)?),
        Err(_) => Err(Fault::Line),
    }
}
