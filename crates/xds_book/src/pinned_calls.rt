//! The token of a pin.
ghost use Rattle.std.specs.Prelude.{◌≡◌, ◌+◌, ◌≤◌, IfOk, OnOk};
ghost use Rattle.route_match.specs.Routes.{route, routes_tried};
ghost use Rattle.xds_book.specs.BookViews.{pinned_front};

use crate::jobs::Job;
use cluster_tree::Snapshot;
use route_match::{RouteAnswer, choose_route};
use snapshot_store::{Archive, Ticket};
use std::alloc::Global;
use std::marker::{Model, PhantomData};
use std::sync::ledger::Ledger;
use xc_base::{Call, Memory, Shared, Steps};

/// Shows that a call has pinned a snapshot, which it reads without any lock. A token that is let go without a hold leaves its
/// pin up.
#[derive(Drop)]
pub struct Pinned<J: Job> {
    pub(crate) alloc: Global,
    pub(crate) call: Shared<Call>,
    pub(crate) ticket: Ticket<Snapshot>,
    pub(crate) archive: Shared<Archive<Snapshot>>,
    pub(crate) of: PhantomData<J>,
}

impl<J: Job> Model for Pinned<J> {
    ghost use Rattle.xds_book.specs.BookViews.{PinnedView};
    ghost use Rattle.xds_book.specs.BookKept.{IsPinned};

    ghost Value = { PinnedView };

    ghost view = { λ p. record { call = p.call; ticket = p.ticket } };

    ghost invariant = { λ p. IsPinned J.archive p.archive p.ticket };
}

impl<J: Job> Pinned<J> {
    /// The call whose pin it is.
    pub fn call(&self) -> &Call
        ensures { result.now ≡ self.now.call }
    {
        self.call.get()
    }

    /// Where the call goes by the snapshot that it has pinned. It waits for nobody, and counts one step for each route that is
    /// tried.
    pub fn route<L: Ledger>(&self, steps: &mut Steps<L>) -> Result<RouteAnswer, Memory>
        ensures answer { IfOk result (λ answer. answer ≡ route (pinned_front self.now) self.now.call) }
        ensures cost { OnOk result (steps.new ≡ steps.old + routes_tried (pinned_front self.now) self.now.call) }
        ensures later { steps.old ≤ steps.new }
    {
        let snapshot = self.archive.get().read(&self.ticket);
        choose_route(
            self.alloc,
            &snapshot.config.get().front,
            self.call.get(),
            steps,
        )
    }
}
