//! Why a step of a channel isn't made.
use call_journal::Count;

/// Why a channel has ended.
#[derive(Clone, Copy, PartialEq, Eq)]
pub enum First {
    /// A lane counted otherwise than the Book.
    Stranger {
        /// The Book's count of the lane's actor.
        book: Count,
        /// The lane's.
        lane: Count,
    },
    /// There was no memory.
    Memory,
}

/// Why a step isn't made, tried in the order Ended, Stranger, Memory.
#[derive(Clone, Copy, PartialEq, Eq)]
pub enum ChanFault {
    /// The lane counts otherwise than the Book, which ends the channel.
    Stranger {
        /// The Book's count of the lane's actor.
        book: Count,
        /// The lane's.
        lane: Count,
    },
    /// The channel has ended, by this fault.
    Ended(First),
    /// There was no memory, which ends the channel.
    Memory,
}
