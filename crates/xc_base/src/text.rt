//! A text.
ghost use Rattle.std.specs.Prelude.{◌≡◌, ◌==◌, [], length, string_bytes, map, chars, encode_utf8_all, IfOk, IfSome, Some, refl, IsTrue, ◌↔◌};
ghost use Rattle.std.specs.Char.{to_ascii_lowercase};
ghost use Rattle.std.specs.Ordering.{nat_cmp};
ghost use Rattle.std.specs.Str.{str_to_ascii_lowercase};
ghost use Rattle.std.specs.Cmp.{partial_equiv_from_equiv};
ghost use Rattle.std.specs.Cmp.Lexicographic.{slice_cmp, pointwise, nat_list_eq_equiv, nat_list_cmp_total, texts_ties, texts_po};

use crate::memory::Memory;
use crate::shared::Shared;
use arrayvec::ArrayString;
use std::alloc::Global;
use std::cmp::Ordering;
use std::fmt;
use std::marker::Model;

/// The most bytes that lie in a text itself.
const SHORT_LENGTH: usize = 16;

/// Where the bytes of a text lie.
#[derive(Drop)]
enum TextBody {
    /// In the value itself, as those of most names do.
    Short(ArrayString<SHORT_LENGTH>),
    /// Behind a count of its owners.
    Long(Shared<String>),
}

/// UTF-8 text that doesn't change, which contracts see as the list of its bytes. A text of at most 16 bytes takes no
/// memory of its own; the copies of a longer one share its bytes.
#[derive(Drop)]
pub struct Text {
    body: TextBody,
}

impl Model for Text {
    ghost use Rattle.std.specs.Prelude.{List, ℕ};
    ghost use Rattle.xc_base.specs.Texts.{body_bytes};

    ghost Value = { List ℕ };

    ghost view = { λ t. body_bytes t.body };
}

impl Text {
    /// The empty text. It takes no memory.
    pub fn new() -> Text
        ensures { result ≡ [] }
    {
        Text {
            body: TextBody::Short(ArrayString::new()),
        }
    }

    /// A text of these bytes, which must be short.
    fn short(text: &str) -> Option<Text>
        ensures { IfSome result (λ t. t ≡ text.now) }
    {
        match ArrayString::from(text) {
            Ok(short) => Some(Text {
                body: TextBody::Short(short),
            }),
            Err(_) => None,
        }
    }

    /// A text of the bytes that the string holds, which the copies share.
    fn long(alloc: Global, text: String) -> Result<Text, Memory>
        ensures { IfOk result (λ t. t ≡ string_bytes text) }
    {
        let text = Shared::new(alloc, text)?;
        Ok(Text {
            body: TextBody::Long(text),
        })
    }

    /// A text of these bytes.
    pub fn from_str(alloc: Global, text: &str) -> Result<Text, Memory>
        ensures { IfOk result (λ t. t ≡ text.now) }
    {
        match Text::short(text) {
            Some(short) => Ok(short),
            None => Text::long(alloc, String::from_str(alloc, text)?),
        }
    }

    /// The text that the string holds.
    pub fn from_string(alloc: Global, text: String) -> Result<Text, Memory>
        ensures { IfOk result (λ t. t ≡ string_bytes text) }
    {
        match Text::short(text.as_str()) {
            Some(short) => Ok(short),
            None => Text::long(alloc, text),
        }
    }

    /// The text with its ASCII letters in lower case; all other bytes stay.
    pub fn lowercase(alloc: Global, text: &str) -> Result<Text, Memory>
        ensures { IfOk result (λ t. t ≡ str_to_ascii_lowercase text.now) }
    {
        let text = lower_characters(alloc, text)?;
        Text::from_string(alloc, text)
    }

    /// The text itself.
    pub fn as_str(&self) -> &str
        ensures { result.now ≡ self.now }
    {
        match &self.body {
            TextBody::Short(short) => short.as_str(),
            TextBody::Long(long) => long.get().as_str(),
        }
    }

    /// How many bytes it has.
    pub fn len(&self) -> usize
        ensures { result ≡ length self.now }
    {
        self.as_str().len()
    }

    /// Whether it has no byte.
    pub fn is_empty(&self) -> bool
        ensures { IsTrue result ↔ (self.now ≡ []) }
    {
        self.as_str().is_empty()
    }
}

/// The text with each ASCII letter in lower case.
fn lower_characters(alloc: Global, text: &str) -> Result<String, Memory>
    ensures { IfOk result (λ s. string_bytes s ≡ encode_utf8_all (map to_ascii_lowercase (chars text.now))) }
{
    text.chars().map(|c| c.to_ascii_lowercase()).collect(alloc)
}

impl Clone for Text {
    ghost is_clone = { λ s t. t ≡ s };

    /// The copy of a text that isn't short shares its bytes.
    fn clone(&self) -> Result<Text, Memory> {
        let body = match &self.body {
            TextBody::Short(short) => TextBody::Short(*short),
            TextBody::Long(long) => TextBody::Long(long.share()?),
        };
        Ok(Text { body })
    }
}

impl PartialEq for Text {
    ghost eq = { pointwise ◌==◌ };

    ghost laws = { partial_equiv_from_equiv nat_list_eq_equiv };

    fn eq(&self, other: &Text) -> bool {
        self.as_str() == other.as_str()
    }
}

impl Eq for Text {
    ghost laws = { nat_list_eq_equiv };
}

/// Texts are ordered by their bytes.
impl Ord for Text {
    ghost cmp = { slice_cmp nat_cmp };

    ghost total = { nat_list_cmp_total };

    ghost matches_partial_cmp = { λ x y. refl };

    ghost matches_eq = { texts_ties };

    fn cmp(&self, other: &Text) -> Ordering {
        self.as_str().cmp(other.as_str())
    }
}

impl PartialOrd for Text {
    ghost partial_cmp = { λ x y. Some (slice_cmp nat_cmp x y) };

    ghost laws = { texts_po };

    fn partial_cmp(&self, other: &Text) -> Option<Ordering> {
        Some(self.cmp(other))
    }
}

impl fmt::Display for Text {
    ghost output = { λ t. Some t };

    fn fmt<W: fmt::Write>(&self, f: &mut fmt::Formatter<W>) -> fmt::Result {
        let text = self.as_str();
        write!(f, "{text}")
    }
}

impl fmt::Debug for Text {
    fn fmt<W: fmt::Write>(&self, f: &mut fmt::Formatter<W>) -> fmt::Result {
        let text = self.as_str();
        write!(f, "{text:?}")
    }
}
