//! Where a call goes by the snapshot that is pinned for it.
ghost use Rattle.std.specs.Prelude.{◌≡◌, IfOk};
ghost use Rattle.snapshot_store.specs.Tickets.{IsTicketOf};
ghost use Rattle.xds_config.specs.Configs.{IsLawfulFront};
ghost use Rattle.route_match.specs.Routes.{route};

use cluster_tree::Snapshot;
use route_match::{RouteAnswer, choose_route};
use snapshot_store::{Archive, Ticket};
use std::alloc::Global;
use std::sync::ledger::Ledger;
use xc_base::{Call, Memory, Steps};

/// A call with a ticket, and where the call goes by the snapshot that the ticket reads.
#[derive(Drop)]
pub struct TicketRoute<'a> {
    pub ticket: &'a Ticket<Snapshot>,
    pub call: &'a Call,
    pub answer: RouteAnswer,
}

/// Where the call goes by the snapshot of its own ticket. Where both tickets have one place the answer is the one that is
/// known, and no step is counted; else the route is chosen anew.
pub fn own_route<L: Ledger>(
    alloc: Global,
    archive: &Archive<Snapshot>,
    own: &Ticket<Snapshot>,
    known: TicketRoute<'_>,
    steps: &mut Steps<L>,
) -> Result<RouteAnswer, Memory>
    requires own { IsTicketOf archive.now own.now }
    requires known { IsTicketOf archive.now known.ticket.now }
    requires lawful { IfOk own.now.value.config.front IsLawfulFront }
    requires answer { known.answer ≡ route known.ticket.now.value.config.front known.call.now }
    ensures answer { IfOk result (λ answer. answer ≡ route own.now.value.config.front known.entry.call.now) }
    ensures cost { own.now.index ≡ known.entry.ticket.now.index → steps.new ≡ steps.old }
{
    if archive.same(own, known.ticket) {
        return Ok(known.answer);
    }
    let front = &archive.read(own).config.get().front;
    choose_route(alloc, front, known.call, steps)
}
