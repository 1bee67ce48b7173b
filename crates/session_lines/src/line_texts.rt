//! Parts of texts.
ghost use Rattle.std.specs.Prelude.{◌≡◌, ◌<◌, IfSome, is_some};
ghost use Rattle.std.specs.Str.{is_utf8};
ghost use Rattle.xds_name.specs.NameTexts.{after, cut_at, seen, seen_pair};

use std::str;

/// The text that the bytes are.
pub fn text(bytes: &[u8]) -> Option<&str>
    ensures some { IfSome result (λ text. text.now ≡ bytes.now) }
    ensures found { is_some result ≡ is_utf8 bytes.now }
{
    match str::from_utf8(bytes) {
        Ok(text) => Some(text),
        Err(_) => None,
    }
}

/// What stands before and after the first such character, which is of ASCII.
pub fn cut_at(at: char, text: &str) -> Option<(&str, &str)>
    requires { at < 128 }
    ensures { seen_pair result ≡ cut_at at text.now }
{
    text.split_once(at)
}

/// What stands after this text, where the other begins with it.
pub fn after<'a>(front: &str, text: &'a str) -> Option<&'a str>
    ensures { seen result ≡ after front.now text.now }
{
    text.strip_prefix(front)
}
