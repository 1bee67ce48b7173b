//! What events do to streams.

/// What an event does to the stream of an authority.
#[derive(Clone, Copy, PartialEq, Eq)]
pub enum Turn {
    /// It opens one.
    Opens,
    /// It ends the one that is up.
    Ends,
    /// The stream stays as it is.
    Stays,
}
