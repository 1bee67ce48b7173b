//! Texts that are refused before any resource is checked.
ghost use Rattle.std.specs.Prelude.{IfOk, OnOk};
ghost use Rattle.check_steps.specs.Sets.{Gains};
ghost use Rattle.listed_check.specs.ListedTexts.{KnowsThese, RefusesThese};

use check_steps::Asked;
use std::alloc::Global;
use std::collections::BTreeSet;
use xc_base::{Memory, Text};

/// Keeps a text as refused, unless it was kept before.
fn refuse_once(asked: &mut Asked, seen: &mut BTreeSet<Text>, text: &Text) -> Result<(), Memory>
    requires { KnowsThese asked.old seen.old }
    ensures knows { OnOk result (KnowsThese asked.new seen.new) }
    ensures seen { OnOk result (Gains seen.old seen.new text.now) }
{
    if seen.insert(text.clone()?)? {
        asked.refuse(text)?;
    }
    Ok(())
}

/// Nothing was asked, and each of the texts is refused.
pub fn refuse_all(alloc: Global, texts: &[Text]) -> Result<Asked, Memory>
    ensures { IfOk result (λ asked. RefusesThese asked texts.now) }
{
    let mut asked = Asked::new(alloc);
    let mut seen = BTreeSet::new(alloc);
    for text in texts {
        refuse_once(&mut asked, &mut seen, text)?;
    }
    Ok(asked)
}
