//! What is kept of the snapshot that was published last.
ghost use Rattle.std.specs.Prelude.{◌≡◌, IfOk, IfSome, None};
ghost use Rattle.snapshot_store.specs.Tickets.{IsTicketOf};
ghost use Rattle.xds_history.specs.References.{names_in};

use crate::host_clusters::names_in;
use cluster_tree::Snapshot;
use snapshot_store::{Archive, Ticket};
use std::alloc::Global;
use xc_base::{List, Memory, Shared, Text};

/// The snapshot that was published last.
#[derive(Drop)]
pub struct Latest {
    /// Its number.
    pub number: u32,
    /// Its ticket.
    pub ticket: Ticket<Snapshot>,
    /// The clusters that its host names, which all its pins share. They are there from its first pin on.
    pub names: Option<Shared<List<Text>>>,
}

/// What is kept of the snapshot of a ticket.
pub(crate) fn latest_of(
    archive: &Archive<Snapshot>,
    ticket: &Ticket<Snapshot>,
) -> Result<Latest, Memory>
    requires { IsTicketOf archive.now ticket.now }
    ensures ticket { IfOk result (λ l. l.ticket ≡ ticket.now) }
    ensures number { IfOk result (λ l. l.number ≡ ticket.now.value.number) }
    ensures names { IfOk result (λ l. l.names ≡ None) }
{
    Ok(Latest {
        number: archive.read(ticket).number,
        ticket: ticket.copy()?,
        names: None,
    })
}

/// The clusters that the host of the latest snapshot names. They are made where they aren't there yet.
pub(crate) fn names_of(
    alloc: Global,
    archive: &Archive<Snapshot>,
    latest: &Latest,
) -> Result<Shared<List<Text>>, Memory>
    requires ticket { IsTicketOf archive.now latest.now.ticket }
    requires names { IfSome latest.now.names (λ names. names ≡ names_in latest.now.ticket.value) }
    ensures { IfOk result (λ names. names ≡ names_in latest.now.ticket.value) }
{
    if let Some(names) = &latest.names {
        return names.share();
    }
    let names = names_in(alloc, archive.read(&latest.ticket))?;
    Ok(Shared::new(alloc, names)?)
}
