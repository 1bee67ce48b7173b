//! The journal of a channel: what the driver and the callers did, and what they were answered.
#![tactic(auto)]

pub mod entry;
pub mod event;
pub mod journal;
pub mod plan;
pub mod reply;

pub use entry::{Entry, What};
pub use event::{BytesHow, CallerEvent, DriverEvent};
pub use journal::{Journal, MOST_ENTRIES};
pub use plan::{Count, Listed, ListedEvent, Plan};
pub use reply::{CallerReply, DriverReply, Sent};
