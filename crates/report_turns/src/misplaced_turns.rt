//! Why an entry can't stand where it stands.
/// Why an entry can't stand where it stands in a report.
#[derive(Clone, Copy, Debug, PartialEq, Eq)]
pub enum Misplaced {
    /// The session has no such actor.
    NoActor,
    /// The session has no such line of the actor.
    NotListed,
    /// All that the line makes stands before.
    Again,
    /// This line has to end before.
    Early(u32),
}
