//! Responses that are read and checked before any lock is taken.
ghost use Rattle.std.specs.Prelude.{◌≡◌, ◌++◌, IfOk};
ghost use Rattle.lane_checks.specs.book_hearing.HeardEvents.{IsPreparedFor, IsShortIn, texts_of};

use call_journal::DriverEvent;
use header_match::Patterns;
use resource_check::{Prepared, prepare};
use std::alloc::Global;
use xc_base::Memory;

/// A response, read and checked; None for any other event. It fails for want of memory alone.
pub fn prepared_event<P: Patterns>(
    alloc: Global,
    event: &DriverEvent,
    patterns: &mut P,
) -> Result<Option<Prepared>, Memory>
    requires { IsShortIn event.now }
    ensures prepared { IfOk result (IsPreparedFor event.now) }
    ensures told { IfOk result (λ prepared. P.refused patterns.new ≡ P.refused patterns.old ++ texts_of prepared) }
{
    match event {
        DriverEvent::Response { payload, .. } => {
            let prepared = prepare(alloc, payload.share()?, patterns)?;
            Ok(Some(prepared))
        }
        DriverEvent::Opened(_)
        | DriverEvent::Bytes { .. }
        | DriverEvent::Lost(_)
        | DriverEvent::Moment(_)
        | DriverEvent::Endpoint { .. }
        | DriverEvent::Sweep => Ok(None),
    }
}
