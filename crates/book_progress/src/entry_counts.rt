//! What an entry counts, and whether it ends its line.
ghost use Rattle.std.specs.Prelude.{◌≡◌, ◌<◌, ◌-◌, ◌^◌};
ghost use Rattle.book_progress.specs.ActorCounts.{count_after, count_called, count_pinned, with_ended, with_pin, without_pin};
ghost use Rattle.book_progress.specs.EndedLines.{call_ends, ends_line, event_ends, pin_ends};

use call_journal::{CallerEvent, CallerReply, Count, DriverEvent, What};

/// The count with an event more that has ended.
fn with_ended(count: Count) -> Count
    requires { count.ended < 2 ^ 32 - 1 }
    ensures { result ≡ with_ended count }
{
    Count {
        ended: count.ended + 1,
        pins: count.pins,
    }
}

/// The count with a pin more that is up.
fn with_pin(count: Count) -> Count
    requires { count.pins < 2 ^ 32 - 1 }
    ensures { result ≡ with_pin count }
{
    Count {
        ended: count.ended,
        pins: count.pins + 1,
    }
}

/// The count after a hold.
fn without_pin(count: Count) -> Count
    requires { count.ended < 2 ^ 32 - 1 }
    ensures { result ≡ without_pin count }
{
    Count {
        ended: count.ended + 1,
        pins: count.pins.saturating_sub(1),
    }
}

/// The count after a pin with this reply.
fn count_pinned(reply: &CallerReply, count: Count) -> Count
    requires ended { count.ended < 2 ^ 32 - 1 }
    requires pins { count.pins < 2 ^ 32 - 1 }
    ensures { result ≡ count_pinned reply.now count }
{
    match reply {
        CallerReply::Pinned(_) => with_pin(count),
        _ => with_ended(count),
    }
}

/// The count after a caller's event with this reply.
fn count_called(event: &CallerEvent, reply: &CallerReply, count: Count) -> Count
    requires ended { count.ended < 2 ^ 32 - 1 }
    requires pins { count.pins < 2 ^ 32 - 1 }
    ensures { result ≡ count_called event.now reply.now count }
{
    match event {
        CallerEvent::Pin(_) => count_pinned(reply, count),
        CallerEvent::Hold(_) => without_pin(count),
        CallerEvent::Pick { .. } => with_ended(count),
        CallerEvent::Commit(_) => with_ended(count),
    }
}

/// An actor's count after an entry of its own.
pub fn count_after(what: &What, count: Count) -> Count
    requires ended { count.ended < 2 ^ 32 - 1 }
    requires pins { count.pins < 2 ^ 32 - 1 }
    ensures { result ≡ count_after what.now count }
{
    match what {
        What::Driver { .. } => with_ended(count),
        What::Caller { event, reply } => count_called(event, reply, count),
    }
}

/// Whether a pin with this reply ends its line.
fn pin_ends(reply: &CallerReply) -> bool
    ensures { result ≡ pin_ends reply.now }
{
    !matches!(reply, CallerReply::Pinned(_))
}

/// Whether an event of the driver ends its line.
fn event_ends(event: &DriverEvent) -> bool
    ensures { result ≡ event_ends event.now }
{
    !matches!(event, DriverEvent::Response { .. })
}

/// Whether a caller's event ends its line.
fn call_ends(event: &CallerEvent, reply: &CallerReply) -> bool
    ensures { result ≡ call_ends event.now reply.now }
{
    match event {
        CallerEvent::Pin(_) => pin_ends(reply),
        CallerEvent::Hold(_) => true,
        CallerEvent::Pick { .. } => true,
        CallerEvent::Commit(_) => true,
    }
}

/// Whether an entry ends its line.
pub fn ends_line(what: &What) -> bool
    ensures { result ≡ ends_line what.now }
{
    match what {
        What::Driver { event, .. } => event_ends(event),
        What::Caller { event, reply } => call_ends(event, reply),
    }
}
