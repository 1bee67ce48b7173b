//! The pattern texts at which checks stop.
ghost use Rattle.std.specs.Prelude.{◌≡◌, ◌++◌, OnOk};
ghost use Rattle.resource_check.specs.Answers.{new_text, stop_text};
ghost use Rattle.resource_check.specs.Resources.{reason_of};
ghost use Rattle.listed_check.specs.ListedTexts.{HasThese};

use check_steps::Stop;
use std::collections::BTreeSet;
use xc_base::{List, Memory, Reason, Text};

/// The reason of a step at which checks stop, with the text if it is one of a pattern.
pub fn reason_and_text(stop: Stop) -> (Reason, Option<Text>)
    ensures reason { result.0 ≡ reason_of stop }
    ensures text { result.1 ≡ stop_text stop }
{
    match stop {
        Stop::Because(reason) => (reason, None),
        Stop::Refused(text) => (Reason::BadPattern, Some(text)),
    }
}

/// Adds a text, if there is one and it doesn't stand there yet. `seen` has the texts.
pub fn add_once(
    texts: &mut List<Text>,
    seen: &mut BTreeSet<Text>,
    found: Option<Text>,
) -> Result<(), Memory>
    requires { HasThese seen.old texts.old }
    ensures texts { OnOk result (texts.new ≡ texts.old ++ new_text texts.old found) }
    ensures seen { OnOk result (HasThese seen.new texts.new) }
{
    let Some(text) = found else {
        return Ok(());
    };
    if seen.insert(text.clone()?)? {
        texts.push(text)?;
    }
    Ok(())
}
