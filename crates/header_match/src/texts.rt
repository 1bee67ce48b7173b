//! How texts are compared. Where `no_case` is true, ASCII letters are compared without case, and all
//! other bytes as they are. Nothing here takes memory.
ghost use Rattle.std.specs.Prelude.{◌≡◌};
ghost use Rattle.header_match.specs.Texts.{is_same, begins_with, ends_with, contains};

/// Whether two texts are equal.
pub fn is_same(text: &[u8], other: &[u8], no_case: bool) -> bool
    ensures { result ≡ is_same no_case text.now other.now }
{
    if no_case {
        text.eq_ignore_ascii_case(other)
    } else {
        text == other
    }
}

/// Whether a text begins with another.
pub fn begins_with(text: &[u8], prefix: &[u8], no_case: bool) -> bool
    ensures { result ≡ begins_with no_case text.now prefix.now }
{
    if text.len() < prefix.len() {
        return false;
    }
    is_same(&text[..prefix.len()], prefix, no_case)
}

/// Whether a text ends with another.
pub fn ends_with(text: &[u8], suffix: &[u8], no_case: bool) -> bool
    ensures { result ≡ ends_with no_case text.now suffix.now }
{
    if text.len() < suffix.len() {
        return false;
    }
    let (_, end) = text.split_at(text.len() - suffix.len());
    is_same(end, suffix, no_case)
}

/// Whether a text has another as a part.
pub fn contains(text: &[u8], part: &[u8], no_case: bool) -> bool
    ensures { result ≡ contains no_case text.now part.now }
{
    for at in 0..text.len() {
        let (_, rest) = text.split_at(at);
        if begins_with(rest, part, no_case) {
            return true;
        }
    }
    part.is_empty()
}
