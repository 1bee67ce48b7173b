//! Names that templates make.
ghost use Rattle.std.specs.Prelude.{◌≡◌, IfOk, string_bytes};
ghost use Rattle.xds_name.specs.Targets.{escaped, filled, name_from};

use percent_encoding::{AsciiSet, NON_ALPHANUMERIC, ascii_set, utf8_percent_encode};
use std::alloc::Global;
use xc_base::Memory;

/// The bytes that are escaped: all but letters, digits and `-._~!$&'()*+,;=:@/`.
const ESCAPED: AsciiSet = ascii_set!(
    NON_ALPHANUMERIC
        .remove(b'-')
        .remove(b'.')
        .remove(b'_')
        .remove(b'~')
        .remove(b'!')
        .remove(b'$')
        .remove(b'&')
        .remove(b'\'')
        .remove(b'(')
        .remove(b')')
        .remove(b'*')
        .remove(b'+')
        .remove(b',')
        .remove(b';')
        .remove(b'=')
        .remove(b':')
        .remove(b'@')
        .remove(b'/')
);

/// A name with `%` and two upper-case hexadecimal digits in place of each byte that is escaped.
fn escape(alloc: Global, name: &str) -> Result<String, Memory>
    ensures { IfOk result (λ s. string_bytes s ≡ escaped name.now) }
{
    let mut text = String::new(alloc);
    utf8_percent_encode(name, ESCAPED).append_to(&mut text)?;
    Ok(text)
}

/// A template with a name in place of each `%s`.
fn fill(alloc: Global, template: &str, name: &str) -> Result<String, Memory>
    ensures { IfOk result (λ s. string_bytes s ≡ filled name.now template.now) }
{
    template.replace(alloc, "%s", name)
}

/// The template with the name in place of each `%s` (gRFC A47). Where the template begins with `xdstp:`,
/// all bytes of the name but letters, digits and `-._~!$&'()*+,;=:@/` are escaped.
pub fn name_from(alloc: Global, template: &str, name: &str) -> Result<String, Memory>
    ensures { IfOk result (λ s. string_bytes s ≡ name_from template.now name.now) }
{
    if template.starts_with("xdstp:") {
        let name = escape(alloc, name)?;
        fill(alloc, template, &name)
    } else {
        fill(alloc, template, name)
    }
}
