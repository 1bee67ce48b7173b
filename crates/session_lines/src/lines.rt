//! Lines of a session's bytes.
ghost use Rattle.std.specs.Prelude.{◌≡◌, ◌∷◌, ◌<◌, [], length, IfNone, IfSome};
ghost use Rattle.xds_name.specs.NameTexts.{cut_at, seen_pair};
ghost use Rattle.session_lines.specs.Lines.{is_driver, is_driver_line, is_gate, lines_of};

use line_output::find_byte;

/// What stands before and after the first such byte.
fn cut_at(byte: u8, bytes: &[u8]) -> Option<(&[u8], &[u8])>
    ensures parts { seen_pair result ≡ cut_at byte bytes.now }
    ensures shorter { IfSome result (λ p. length p.1.now < length bytes.now) }
{
    match find_byte(byte, bytes) {
        Some(at) => Some((bytes.split_at(at).0, bytes.split_at(at + 1).1)),
        None => None,
    }
}

/// The first line, and what stands after its line feed; None where there is no line.
pub fn next_line(bytes: &[u8]) -> Option<(&[u8], &[u8])>
    ensures none { IfNone result (bytes.now ≡ []) }
    ensures some { IfSome result (λ p. lines_of bytes.now ≡ p.0.now ∷ lines_of p.1.now) }
    ensures shorter { IfSome result (λ p. length p.1.now < length bytes.now) }
{
    if bytes.is_empty() {
        return None;
    }
    match cut_at(b'\n', bytes) {
        Some((line, rest)) => Some((line, rest)),
        None => Some((bytes, b"")),
    }
}

/// Whether a word begins with `@`.
fn is_gate(word: &[u8]) -> bool
    ensures { result ≡ is_gate word.now }
{
    matches!(word, [b'@', ..])
}

/// Whether a word is `d`.
fn is_driver(word: &[u8]) -> bool
    ensures { result ≡ is_driver word.now }
{
    word == b"d".as_slice()
}

/// Whether a line's first word that doesn't begin with `@` is `d`.
pub fn is_driver_line(line: &[u8]) -> bool
    ensures { result ≡ is_driver_line line.now }
{
    let mut rest = line;
    while let Some((word, after)) = cut_at(b' ', rest) {
        if is_gate(word) {
            rest = after;
        } else {
            return is_driver(word);
        }
    }
    if is_gate(rest) {
        false
    } else {
        is_driver(rest)
    }
}
