//! Canonical names.
ghost use Rattle.std.specs.Prelude.{◌≡◌, ◌++◌, map, codes, IfOk, string_bytes, unwrap_or};
ghost use Rattle.std.specs.List.{join_with_byte};
ghost use Rattle.xds_name.specs.Names.{canonical_of};
ghost use Rattle.xds_name.specs.Parameters.{in_order, key_of, parameter_cmp};
ghost use Rattle.xds_name.specs.NameTexts.{parts_at};

use crate::name_parts::parts_in;
use crate::name_texts::cut_at;
use std::alloc::Global;
use std::cmp::Ordering;
use xc_base::{Memory, Text};

/// The key of a parameter, which ends at its first `=`.
fn key(parameter: &str) -> &str
    ensures { result.now ≡ key_of parameter.now }
{
    match parameter.split_once('=') {
        Some((key, _)) => key,
        None => parameter,
    }
}

/// Compares two parameters by their keys, and by all their bytes where the keys are equal.
fn compare(a: &str, b: &str) -> Ordering
    ensures { result ≡ parameter_cmp a.now b.now }
{
    key(a).cmp(key(b)).then(a.cmp(b))
}

/// The parameters in the order in which they stand.
fn parameters(alloc: Global, text: &str) -> Result<Vec<&str>, Memory>
    ensures { IfOk result (λ v. map (λ p. p.now) v.items ≡ parts_at 38 text.now) }
{
    text.split('&').collect(alloc)
}

/// The parameters in the order of canonical names.
fn sort_parameters(alloc: Global, text: &str) -> Result<Vec<&str>, Memory>
    ensures { IfOk result (λ v. map (λ p. p.now) v.items ≡ in_order (parts_at 38 text.now)) }
{
    let mut parameters = parameters(alloc, text)?;
    parameters.sort_unstable_by(|a, b| compare(a, b));
    Ok(parameters)
}

/// The parameters with `&` between each two.
fn join_parameters(alloc: Global, parameters: &[&str]) -> Result<String, Memory>
    ensures { IfOk result (λ s. string_bytes s ≡ join_with_byte 38 (map (λ p. p.now) parameters.now)) }
{
    parameters.join(alloc, "&")
}

/// The canonical text of a name with parameters; None where the name is its own canonical text.
#[tactic(auto, unfolding(crate::specs::Names::canonical_of))]
fn reorder(alloc: Global, text: &str) -> Result<Option<Text>, Memory>
    ensures { IfOk result (λ name. unwrap_or name text.now ≡ canonical_of text.now) }
{
    if parts_in(text).is_none() {
        return Ok(None);
    }
    let Some((head, parameters)) = cut_at('?', text) else {
        return Ok(None);
    };
    let parameters = sort_parameters(alloc, parameters)?;
    let parameters = join_parameters(alloc, &parameters)?;
    let name = format!(in alloc; "{head}?{parameters}")?;
    let name = Text::from_string(alloc, name)?;
    Ok(Some(name))
}

/// The canonical text of a name (gRFC A47, xRFC TP1): an `xdstp:` name's parameters stand in the order of
/// their keys, and those of one key in the order of all their bytes. Nothing is decoded. A name that
/// hasn't the form of an `xdstp:` name is its own canonical text.
pub fn canonical(alloc: Global, text: &str) -> Result<Text, Memory>
    ensures { IfOk result (λ name. name ≡ canonical_of text.now) }
{
    match reorder(alloc, text)? {
        Some(name) => Ok(name),
        None => Text::from_str(alloc, text),
    }
}

/// The canonical text of a name that is held as a text, which is shared where the name is its own
/// canonical text.
pub fn canonical_name(alloc: Global, name: &Text) -> Result<Text, Memory>
    ensures { IfOk result (λ other. other ≡ canonical_of name.now) }
{
    match reorder(alloc, name.as_str())? {
        Some(other) => Ok(other),
        None => name.clone(),
    }
}
