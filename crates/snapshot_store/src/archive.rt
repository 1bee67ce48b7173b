//! An archive that only grows, and its tickets.
ghost use Rattle.std.specs.Prelude.{◌≡◌, ◌↔◌, IfOk, IfErr, IsTrue, Ok};
ghost use Rattle.snapshot_store.specs.Tickets.{IsTicketOf};

use boxcar::Pushed;
use std::alloc::Global;
use std::marker::Model;
use std::sync::Wait;
use xc_base::Memory;

/// Values that stay where they were pushed. Contracts see the places by which its tickets are told from
/// those of other archives.
#[derive(Drop)]
pub struct Archive<T> {
    values: boxcar::Vec<T>,
}

impl<T> Model for Archive<T> {
    ghost use Rattle.boxcar.specs.Table.{Shelves, shelves_coded};

    ghost Value = { Shelves };

    ghost coded = { shelves_coded };

    ghost view = { λ a. a.values };
}

/// Shows which value stands at which place of an archive. Contracts see the place and the value.
#[derive(Drop)]
pub struct Ticket<T> {
    pushed: Pushed<T>,
}

impl<T> Model for Ticket<T> {
    ghost use Rattle.boxcar.specs.Table.{Where, where_coded};

    ghost Value = { Where T };

    ghost coded = { where_coded T.code };

    ghost view = { λ t. t.pushed };
}

impl<T: Drop> Archive<T> {
    /// An archive of its own, with no values.
    pub fn new(alloc: Global) -> Result<Archive<T>, Memory> {
        Ok(Archive {
            values: boxcar::Vec::new(alloc)?,
        })
    }

    /// Adds the value, and gives its ticket. Without memory the value comes back.
    pub fn push<R: Wait + Sync>(&self, rt: &R, value: T) -> Result<Ticket<T>, T>
        ensures ticket { IfOk result (λ ticket. IsTicketOf self.now ticket) }
        ensures value { IfOk result (λ ticket. ticket.value ≡ value) }
        ensures back { IfErr result (λ refused. refused ≡ value) }
    {
        match self.values.push_shown(rt, value) {
            Ok(pushed) => Ok(Ticket { pushed }),
            Err(value) => Err(value),
        }
    }
}

impl<T> Archive<T> {
    /// The value that was pushed for the ticket. It takes no memory, and waits for nobody.
    pub fn read<'a>(&'a self, ticket: &Ticket<T>) -> &'a T
        requires { IsTicketOf self.now ticket.now }
        ensures { result.now ≡ ticket.now.value }
    {
        self.values.value(&ticket.pushed)
    }

    /// Whether the tickets have one place. They then read equal values. It takes no memory, and waits for
    /// nobody.
    pub fn same(&self, a: &Ticket<T>, b: &Ticket<T>) -> bool
        requires one { IsTicketOf self.now a.now }
        requires other { IsTicketOf self.now b.now }
        ensures place { IsTrue result ↔ (a.now.index ≡ b.now.index) }
        ensures value { IsTrue result → a.now.value ≡ b.now.value }
    {
        if a.pushed.index() != b.pushed.index() {
            return false;
        }
        self.values.agrees(&a.pushed, &b.pushed);
        true
    }
}

impl<T> Ticket<T> {
    /// The same ticket once more. It always succeeds.
    pub fn copy(&self) -> Result<Ticket<T>, Memory>
        ensures { result ≡ Ok self.now }
    {
        Ok(Ticket {
            pushed: self.pushed.again(),
        })
    }
}
