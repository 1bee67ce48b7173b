//! Lines 1 to 4.
ghost use Rattle.std.specs.Prelude.{◌≡◌, IfOk};
ghost use Rattle.session_lines.specs.Session.{Gives, boot_of, callers_of, header_of, target_of};
ghost use Rattle.xds_bootstrap.specs.Authorities.{AreAuthorities};

use crate::cause::{Cause, SessionFault};
use crate::line_texts::{after, text};
use crate::word_values::number_within;
use crate::words::Words;
use std::alloc::Global;
use xds_bootstrap::{BootFault, Bootstrap};
use xds_name::{Target, TargetFault, listener_name};

/// What lines 1 to 4 say.
#[derive(Drop)]
pub struct Head {
    pub boot: Bootstrap,
    pub target: Target,
    /// 1 to 16.
    pub callers: u16,
}

/// Reads line 1.
#[tactic(auto, unfolding(crate::specs::Session::header_of))]
pub fn header(line: &[u8]) -> Result<(), SessionFault>
    ensures { Gives (λ done. done) result (header_of line.now) }
{
    let text = text(line).ok_or(SessionFault::at(1, Cause::Text))?;
    if text == "xds-session 1" {
        Ok(())
    } else {
        Err(SessionFault::at(1, Cause::Header))
    }
}

/// The bootstrap of line 2.
#[tactic(auto, unfolding(crate::specs::Session::boot_of))]
pub fn boot(alloc: Global, line: &[u8]) -> Result<Bootstrap, SessionFault>
    ensures gives { Gives (λ boot. boot) result (boot_of line.now) }
    ensures lawful { IfOk result (λ boot. AreAuthorities boot.authorities) }
{
    let text = text(line).ok_or(SessionFault::at(2, Cause::Text))?;
    let document = after("boot ", text).ok_or(SessionFault::at(2, Cause::Boot))?;
    match xds_bootstrap::read(alloc, document.as_bytes()) {
        Ok(boot) => Ok(boot),
        Err(BootFault::Memory) => Err(SessionFault::Memory),
        Err(_) => Err(SessionFault::at(2, Cause::Boot)),
    }
}

/// The target of line 3.
#[tactic(auto, unfolding(crate::specs::Session::target_of))]
pub fn target(alloc: Global, boot: &Bootstrap, line: &[u8]) -> Result<Target, SessionFault>
    ensures { Gives (λ target. target) result (target_of boot.now line.now) }
{
    let text = text(line).ok_or(SessionFault::at(3, Cause::Text))?;
    let word = Words::of(text)
        .second("target")
        .ok_or(SessionFault::at(3, Cause::Target))?;
    match listener_name(alloc, boot, word) {
        Ok(target) => Ok(target),
        Err(TargetFault::Memory) => Err(SessionFault::Memory),
        Err(_) => Err(SessionFault::at(3, Cause::Target)),
    }
}

/// The number of callers of line 4.
#[tactic(auto, unfolding(crate::specs::Session::callers_of))]
pub fn callers(line: &[u8]) -> Result<u16, SessionFault>
    ensures { Gives (λ callers. callers) result (callers_of line.now) }
{
    let text = text(line).ok_or(SessionFault::at(4, Cause::Text))?;
    let word = Words::of(text)
        .second("callers")
        .ok_or(SessionFault::at(4, Cause::Callers))?;
    let callers = number_within(1, 16, word).ok_or(SessionFault::at(4, Cause::Callers))?;
    Ok(callers as u16)
}
