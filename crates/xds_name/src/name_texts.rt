//! Parts of texts.
ghost use Rattle.std.specs.Prelude.{◌≡◌, ◌<◌};
ghost use Rattle.xds_name.specs.NameTexts.{after, cut_at, seen, seen_pair};

/// What stands before and after the first such character of a text, which has to be of ASCII.
pub fn cut_at(at: char, text: &str) -> Option<(&str, &str)>
    requires { at < 128 }
    ensures { seen_pair result ≡ cut_at at text.now }
{
    text.split_once(at)
}

/// The rest of a text after this prefix, where the text begins with it.
pub fn rest_after<'a>(prefix: &str, text: &'a str) -> Option<&'a str>
    ensures { seen result ≡ after prefix.now text.now }
{
    text.strip_prefix(prefix)
}
