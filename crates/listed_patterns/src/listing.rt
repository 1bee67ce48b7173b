//! The patterns that lines list first.
ghost use Rattle.std.specs.Prelude.{◌≡◌, IfOk};
ghost use Rattle.xds_name.specs.NameTexts.{after, seen};
ghost use Rattle.session_lines.specs.WordValues.{decoded};
ghost use Rattle.listed_patterns.specs.ListedPatterns.{listed_in, pattern_front};

use percent_encoding::{DecodeError, percent_decode};
use session_lines::lines::next_line;
use std::alloc::{AllocError, Global};
use std::borrow::CowStr;
use xc_base::{List, Memory, Text};

/// What a line of a refused pattern spells; None where it is another line.
fn spelled_in(line: &[u8]) -> Option<&[u8]>
    ensures { seen result ≡ after pattern_front line.now }
{
    line.strip_prefix(b"  pat ")
}

/// The text that these bytes spell; None where they spell none.
#[tactic(auto, unfolding(session_lines::specs::WordValues::decoded))]
fn decoded(alloc: Global, spelled: &[u8]) -> Result<Option<Text>, Memory>
    ensures { IfOk result (λ text. text ≡ decoded spelled.now) }
{
    match percent_decode(spelled).decode_utf8(alloc) {
        Ok(CowStr::Borrowed(text)) => Ok(Some(Text::from_str(alloc, text)?)),
        Ok(CowStr::Owned(text)) => Ok(Some(Text::from_string(alloc, text)?)),
        Err(DecodeError::OutOfMemory) => Err(AllocError),
        Err(DecodeError::Utf8(_)) => Ok(None),
    }
}

/// The pattern texts that these lines list first: those of the lines `  pat TEXT` up to the first line of another form. None
/// where one of these lines doesn't spell a text. It fails for want of memory alone.
#[tactic(auto, using(crate::proofs::ListingLemmas::at_first, crate::proofs::ListingLemmas::goes_on, crate::proofs::ListingLemmas::fails, crate::proofs::ListingLemmas::ends, crate::proofs::ListingLemmas::all_read))]
pub fn listed_patterns(alloc: Global, lines: &[u8]) -> Result<Option<List<Text>>, Memory>
    ensures { IfOk result (λ texts. texts ≡ listed_in lines.now) }
{
    let mut texts = List::new(alloc);
    let mut rest = lines;
    while let Some((line, behind)) = next_line(rest) {
        let Some(spelled) = spelled_in(line) else {
            return Ok(Some(texts));
        };
        let Some(text) = decoded(alloc, spelled)? else {
            return Ok(None);
        };
        texts.push(text)?;
        rest = behind;
    }
    Ok(Some(texts))
}
