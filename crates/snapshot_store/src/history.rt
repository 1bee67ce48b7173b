//! An archive with tickets of it.
ghost use Rattle.std.specs.Prelude.{◌≡◌, ◌<◌, length, slice_get, Some};
ghost use Rattle.snapshot_store.specs.Tickets.{AreTicketsOf, values_of};

use crate::archive::{Archive, Ticket};
use xc_base::{List, Shared};

/// An archive, and a list of tickets that are all of this archive.
#[derive(Drop)]
pub struct History<T> {
    pub archive: Shared<Archive<T>>,
    pub tickets: List<Ticket<T>>,
    ghost own: { AreTicketsOf archive tickets },
}

impl<T> History<T> {
    /// The value that a ticket reads, by the ticket's place from 0. It takes no memory, and waits for
    /// nobody.
    pub fn at(&self, i: u32) -> &T
        requires { i < length self.now.tickets }
        ensures { slice_get (values_of self.now.tickets) i ≡ Some result.now }
    {
        self.archive.get().read(self.tickets.at(i as usize))
    }
}
