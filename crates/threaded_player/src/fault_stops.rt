//! What a fault of a channel comes to.
use channel_crossing::{ChanFault, First};
use closed_book::Stop;

/// What a fault of a channel comes to.
pub(crate) fn stop_of(fault: ChanFault) -> Stop {
    match fault {
        ChanFault::Memory | ChanFault::Ended(First::Memory) => Stop::Memory,
        ChanFault::Stranger { .. } | ChanFault::Ended(First::Stranger { .. }) => Stop::Strange,
    }
}
