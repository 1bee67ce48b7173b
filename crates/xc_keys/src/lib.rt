//! What holds of keys in several layers: their order, and the spans of time for which one is watched or waited for.
#![tactic(auto)]

ghost use Rattle.std.specs.Prelude.{◌≡◌};
ghost use Rattle.xc_keys.specs.Keys.{key_cmp};
ghost use Rattle.xc_keys.specs.KeyLaws.{TellsKeysApart};

use std::cmp::Ordering;
use xc_base::Key;

/// Which of two keys comes first: by kind, then by the bytes of the name, then by the home.
pub fn compare(key: &Key, other: &Key) -> Ordering
    ensures { result ≡ key_cmp key.now other.now }
{
    key.cmp(other)
}

/// The order is total, and two keys are equal exactly where it finds them equal. A call that does nothing.
pub fn keys_are_told_apart()
    ensures { TellsKeysApart }
{}
