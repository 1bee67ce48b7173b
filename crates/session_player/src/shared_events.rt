//! Events of the driver.
ghost use Rattle.std.specs.Prelude.{◌≡◌, IfOk};
ghost use Rattle.book_progress.specs.EndedLines.{event_ends};

use call_journal::DriverEvent;
use xc_base::Memory;

/// The event once more, which shares its payload. It fails for want of memory alone.
pub fn shared_event(event: &DriverEvent) -> Result<DriverEvent, Memory>
    ensures { IfOk result (λ copy. copy ≡ event.now) }
{
    match event {
        DriverEvent::Opened(authority) => Ok(DriverEvent::Opened(*authority)),
        DriverEvent::Response { authority, payload } => Ok(DriverEvent::Response {
            authority: *authority,
            payload: payload.share()?,
        }),
        DriverEvent::Bytes { authority, how } => Ok(DriverEvent::Bytes {
            authority: *authority,
            how: *how,
        }),
        DriverEvent::Lost(authority) => Ok(DriverEvent::Lost(*authority)),
        DriverEvent::Moment(time) => Ok(DriverEvent::Moment(*time)),
        DriverEvent::Endpoint { address, state } => Ok(DriverEvent::Endpoint {
            address: address.share()?,
            state: *state,
        }),
        DriverEvent::Sweep => Ok(DriverEvent::Sweep),
    }
}

/// Whether an event of the driver ends its line.
pub fn ends(event: &DriverEvent) -> bool
    ensures { result ≡ event_ends event.now }
{
    !matches!(event, DriverEvent::Response { .. })
}
