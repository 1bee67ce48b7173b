//! What a channel's target names.
ghost use Rattle.std.specs.Prelude.{◌≡◌, ◌≢◌, ◌↔◌, Some, ℕ, List, Option, Err, slice_get};
ghost use Rattle.xds_name.specs.Targets.{Gives, IsTarget, listener_of, template_at, template_for, with_form};
ghost use Rattle.xds_name.specs.NameTexts.{seen};
ghost use Rattle.xds_name.specs.declared.target.TargetFault.TheVariants as Fault;

use crate::homes::parse_name;
use crate::target_forms::{Form, target_form};
use crate::templates::name_from;
use std::alloc::{AllocError, Global};
use xc_base::{Home, Key, Kind, NameFault, Text};
use xds_bootstrap::Bootstrap;

/// The key of the listener that a target names, and the channel's host, by which a virtual host is
/// chosen.
#[derive(Clone, Drop, PartialEq, Eq)]
pub struct Target {
    pub key: Key,
    pub host: Text,
}

/// Why a target names no listener.
#[derive(Clone, Copy, PartialEq, Eq)]
pub enum TargetFault {
    /// It has none of the forms `xds:name`, `xds:///name` and `xds://authority/name`.
    BadTarget,
    /// Its authority isn't in the bootstrap, or the name that was made has no home.
    Name(NameFault),
    /// There was no memory.
    Memory,
}

impl From<AllocError> for TargetFault {
    ghost from_gives = { λ _ e. e ≡ Fault.Memory };

    fn from(_: AllocError) -> Self {
        TargetFault::Memory
    }
}

/// The template of the entry at a place, and `%s` where there is none.
fn template_at(boot: &Bootstrap, place: usize) -> &str
    ensures { result.now ≡ template_at (slice_get boot.now.authorities place) }
{
    match boot.authorities.as_slice().get(place) {
        Some(entry) => entry.template.as_str(),
        None => "%s",
    }
}

/// The template of an authority, or of the default one where the target names none.
#[tactic(auto, unfolding(crate::specs::Targets::template_for))]
fn template_for<'a>(boot: &'a Bootstrap, authority: Option<&str>) -> Option<&'a str>
    ensures { seen result ≡ template_for boot.now.authorities (seen authority.entry) }
{
    match authority {
        None => Some(template_at(boot, 0)),
        Some(name) => {
            let authority = boot.authority(name)?;
            Some(template_at(boot, usize::from(authority.0)))
        }
    }
}

/// The listener that a target of this form names.
fn listener_of_form(alloc: Global, boot: &Bootstrap, form: Form<'_>) -> Result<Target, TargetFault>
    ensures gives { Gives (with_form boot.now.authorities (Some (seen form.entry.authority, form.entry.name.now))) result }
    ensures formed { result ≢ Err TargetFault.BadTarget }
{
    let Some(template) = template_for(boot, form.authority) else {
        return Err(TargetFault::Name(NameFault::UnknownAuthority));
    };
    let name = name_from(alloc, template, form.name)?;
    let key = parse_name(alloc, boot, Kind::Listener, &name)?;
    if let Home::Nowhere(fault) = key.home {
        return Err(TargetFault::Name(fault));
    }
    let host = Text::from_str(alloc, form.name)?;
    Ok(Target { key, host })
}

/// The listener that a target names through the templates of the bootstrap (gRFC A27, A47), and the
/// target's name as the host. It answers `BadTarget` where the target has none of the three forms, `Name`
/// where its authority isn't in the bootstrap or the name that was made has no home, and `Memory` where
/// there was no memory.
#[tactic(auto, unfolding(crate::specs::Targets::listener_of))]
pub fn listener_name(alloc: Global, boot: &Bootstrap, target: &str) -> Result<Target, TargetFault>
    ensures gives { Gives (listener_of boot.now.authorities target.now) result }
    ensures bad_target { (result ≡ Err TargetFault.BadTarget) ↔ ((authority : Option (List ℕ)) (name : List ℕ) → ¬ (IsTarget target.now authority name)) }
{
    match target_form(target) {
        Some(form) => listener_of_form(alloc, boot, form),
        None => Err(TargetFault::BadTarget),
    }
}
