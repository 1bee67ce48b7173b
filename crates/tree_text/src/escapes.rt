//! Texts with their escapes, by which no name begins or ends a line of a report.
ghost use Rattle.std.specs.Prelude.{◌≡◌, ◌++◌, OnOk, string_bytes};
ghost use Rattle.std.specs.List.{list_all};
ghost use Rattle.tree_text.specs.Escapes.{escaped, stays};

use percent_encoding::{AsciiSet, CONTROLS, ascii_set, utf8_percent_encode};
use xc_base::{Memory, Text};

/// What is written with an escape: all but 0x21 to 0x7E, and of these `%`, `,`, `=` and `|`.
const ESCAPED: AsciiSet = ascii_set!(CONTROLS.add(b' ').add(b'%').add(b',').add(b'=').add(b'|'));

/// Whether a byte is written as it is.
fn stays(byte: u8) -> bool
    ensures { result ≡ stays byte }
{
    byte >= 0x21 && byte <= 0x7E && byte != b'%' && byte != b',' && byte != b'=' && byte != b'|'
}

/// Whether no byte of a text is escaped, as of most names.
fn is_plain(text: &[u8]) -> bool
    ensures { result ≡ list_all stays text.now }
{
    text.iter().all(|byte| stays(*byte))
}

/// Adds the text with its escapes: each byte outside 0x21 to 0x7E, and each `%`, `,`, `=` and `|`, is `%` and two
/// upper-case hexadecimal digits, so that no name begins or ends a line.
#[tactic(auto, using(crate::proofs::EscapeSets::plain))]
pub fn push_escaped(out: &mut String, text: &Text) -> Result<(), Memory>
    ensures { OnOk result (string_bytes out.new ≡ string_bytes out.old ++ escaped text.now) }
{
    let text = text.as_str();
    if is_plain(text.as_bytes()) {
        return out.push_str(text);
    }
    utf8_percent_encode(text, ESCAPED).append_to(out)?;
    Ok(())
}
