//! Words that the lines of a report have in common.
ghost use Rattle.std.specs.Prelude.{◌≡◌, ◌++◌, OnOk, option_copied, string_bytes};
ghost use Rattle.report_parts.specs.ReportWords.{authority_name, authority_text, kind_word, name_text};

use tree_text::push_escaped;
use xc_base::{Authority, Kind, Memory, Text};
use xds_bootstrap::Bootstrap;

/// The word of a kind.
pub fn kind_word(kind: Kind) -> &'static str
    ensures { result.now ≡ kind_word kind }
{
    match kind {
        Kind::Listener => "listener",
        Kind::Route => "route",
        Kind::Cluster => "cluster",
        Kind::Endpoint => "endpoint",
    }
}

/// Adds a name with its escapes, or nothing where there is none.
pub fn push_name(out: &mut String, name: Option<&Text>) -> Result<(), Memory>
    ensures { OnOk result (string_bytes out.new ≡ string_bytes out.old ++ name_text (option_copied name.entry)) }
{
    match name {
        Some(name) => push_escaped(out, name),
        None => Ok(()),
    }
}

/// The name of an authority.
fn authority_name(boot: &Bootstrap, authority: Authority) -> Option<&Text>
    ensures { option_copied result ≡ authority_name boot.now.authorities authority }
{
    let entry = boot.authorities.as_slice().get(authority.0 as usize)?;
    Some(&entry.name)
}

/// Adds an authority: a sign for the default one, and the name of a named one.
pub fn push_authority(
    out: &mut String,
    boot: &Bootstrap,
    authority: Authority,
) -> Result<(), Memory>
    ensures { OnOk result (string_bytes out.new ≡ string_bytes out.old ++ authority_text boot.now.authorities authority) }
{
    if authority.0 == 0 {
        out.push_str("-")?;
        return Ok(());
    }
    out.push_str("+")?;
    push_name(out, authority_name(boot, authority))
}
