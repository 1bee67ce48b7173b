//! A Book with the lanes of its actors.
ghost use Rattle.std.specs.Prelude.{◌≡◌, ◌≢◌, ◌<◌, ◌≤◌, ◌+◌, [], length, All, IfOk, OnOk, false, None};
ghost use Rattle.snapshot_store.specs.Tickets.{values_of};
ghost use Rattle.legal_plan.specs.xds_history.Pages.{pages};
ghost use Rattle.legal_plan.specs.xds_history.References.{held, pinned, snapshots_of};
ghost use Rattle.legal_plan.specs.xds_history.Right.{Right};
ghost use Rattle.legal_plan.specs.xds_history.Setting.{setting_of};
ghost use Rattle.book_progress.specs.ActorCounts.{count_of};
ghost use Rattle.book_progress.specs.PlayedPlans.{IsNext, IsPlayed};
ghost use Rattle.book_progress.specs.PlayedPlans as played;
ghost use Rattle.book_progress.specs.ProgressKept.{most_entries};
ghost use Rattle.xds_book.specs.BookEntries.{IsKnownTo, IsPreparedFor, IsTokenOf, answered_call};
ghost use Rattle.xds_book.specs.BookKept.{HasActors};
ghost use Rattle.xds_book.specs.declared.book_faults.BookFault.TheVariants as Fault;
ghost use Rattle.session_shape.specs.SessionShape.{IsWellFormed};
ghost use Rattle.session_player.specs.Stages.{Adds, Drove, GoesOn};

use call_journal::{CallerEvent, DriverEvent, Journal};
use cluster_tree::Snapshot;
use resource_check::Prepared;
use session_lines::Session;
use session_script::room;
use snapshot_store::{Archive, History};
use std::alloc::{AllocError, Global};
use std::marker::Model;
use std::sync::Wait;
use std::sync::ledger::Ledger;
use xc_base::{Call, CallId, List, Memory, Shared, Steps};
use xds_book::{Book, BookFault, Job, Lane, Pinned};

/// A Book, a lane for each of its actors in their order, and the counter of the steps that routes cost. Contracts see it as
/// the Book.
#[derive(Drop)]
pub(crate) struct Stage<J: Job, L: Ledger> {
    book: Book<J>,
    lanes: Vec<Lane<J>>,
    steps: Steps<L>,
}

impl<J: Job, L: Ledger> Model for Stage<J, L> {
    ghost use Rattle.xds_book.specs.BookViews.{BookView};
    ghost use Rattle.session_player.specs.Stages.{AreLanes};

    ghost Value = { BookView };

    ghost view = { λ s. s.book };

    ghost invariant = { λ s. AreLanes s.book s.lanes.items };
}

/// Want of memory, which is the only fault of a Book that goes on and isn't full.
fn memory_of(fault: BookFault) -> Memory
    requires { fault ≡ Fault.Memory }
{
    let _fault = fault;
    AllocError
}

impl<J: Job, L: Ledger> Stage<J, L> {
    /// A Book in which nothing was done, of a session's channel and callers, with room for as many entries as the session
    /// makes.
    pub(crate) fn begin(
        alloc: Global,
        session: &Session,
        archive: Shared<Archive<Snapshot>>,
        steps: Steps<L>,
    ) -> Result<Stage<J, L>, Memory>
        requires formed { IsWellFormed session.now }
        requires archive { archive ≡ J.archive }
        requires boot { J.boot ≡ session.now.boot }
        requires target { J.target ≡ session.now.target }
        requires plan { HasActors J.plan (session.now.callers + 1) }
        ensures entries { IfOk result (λ stage. stage.entries ≡ []) }
        ensures goes { IfOk result (GoesOn session.now) }
    {
        let boot = session.boot.clone()?;
        let target = session.target.clone()?;
        let room = room(session);
        let (book, lanes) = Book::begin(alloc, boot, target, session.callers, room, archive)?;
        Ok(Stage {
            book,
            lanes: lanes.into_vec(),
            steps,
        })
    }

    /// How many events of the driver have ended.
    pub(crate) fn driven(&self) -> usize
        requires { 0 < length self.now.counts }
        ensures { result ≡ (count_of 0 self.now.entries).ended }
    {
        self.lanes[0].count().ended as usize
    }

    /// Makes the entry of an event of the driver.
    pub(crate) fn drive<R: Wait + Sync>(
        &mut self,
        rt: &R,
        line: u32,
        event: DriverEvent,
        prepared: Option<Prepared>,
    ) -> Result<(), Memory>
        requires some { 0 < length self.old.counts }
        requires goes { self.old.is_spent ≡ false }
        requires room { length self.old.entries < most_entries }
        requires known { IsKnownTo (length J.boot.authorities) event }
        requires prepared { IsPreparedFor event prepared }
        requires next { IsNext J.plan 0 (count_of 0 self.old.entries) line (played.driver event) self.old.entries }
        ensures { OnOk result (Drove line event prepared self.old self.new) }
    {
        let lane = &mut self.lanes[0];
        match self
            .book
            .apply(rt, lane, line, event, prepared, &mut self.steps)
        {
            Ok(_) => Ok(()),
            Err(fault) => Err(memory_of(fault)),
        }
    }

    /// Has a caller pin the latest snapshot for a call. The token is None exactly where none was published.
    pub(crate) fn pin(
        &mut self,
        caller: u16,
        line: u32,
        call: Shared<Call>,
    ) -> Result<Option<Pinned<J>>, Memory>
        requires caller { 0 < caller }
        requires known { caller < length self.old.counts }
        requires goes { self.old.is_spent ≡ false }
        requires room { length self.old.entries < most_entries }
        requires next { IsNext J.plan caller (count_of caller self.old.entries) line (played.caller (CallerEvent.Pin call)) self.old.entries }
        requires free { pinned (pages (setting_of J.boot J.target) self.old.entries) call.id ≡ None }
        requires idle { held (pages (setting_of J.boot J.target) self.old.entries) call.id ≡ None }
        ensures adds { OnOk result (Adds caller line (answered_call (setting_of J.boot J.target) self.old.entries (CallerEvent.Pin call)) self.old self.new) }
        ensures token { IfOk result (λ token. IsTokenOf (setting_of J.boot J.target) self.old self.new call token) }
    {
        let lane = &mut self.lanes[caller as usize];
        match self.book.pin(lane, line, call) {
            Ok(token) => Ok(token),
            Err(fault) => Err(memory_of(fault)),
        }
    }

    /// Has a caller's call, whose pin this is, hold the cluster of its route.
    pub(crate) fn hold(&mut self, caller: u16, line: u32, token: Pinned<J>) -> Result<(), Memory>
        requires caller { 0 < caller }
        requires known { caller < length self.old.counts }
        requires goes { self.old.is_spent ≡ false }
        requires room { length self.old.entries < most_entries }
        requires next { IsNext J.plan caller (count_of caller self.old.entries) line (played.caller (CallerEvent.Hold token.call)) self.old.entries }
        requires up { pinned (pages (setting_of J.boot J.target) self.old.entries) token.call.id ≢ None }
        ensures { OnOk result (Adds caller line (answered_call (setting_of J.boot J.target) self.old.entries (CallerEvent.Hold token.call)) self.old self.new) }
    {
        let answer = token.route(&mut self.steps)?;
        let lane = &mut self.lanes[caller as usize];
        match self.book.hold(lane, line, token, answer, &mut self.steps) {
            Ok(_) => Ok(()),
            Err((fault, _)) => Err(memory_of(fault)),
        }
    }

    /// Has a caller pick an endpoint for a call.
    pub(crate) fn pick(
        &mut self,
        caller: u16,
        line: u32,
        call: CallId,
        word: u64,
    ) -> Result<(), Memory>
        requires caller { 0 < caller }
        requires known { caller < length self.old.counts }
        requires goes { self.old.is_spent ≡ false }
        requires room { length self.old.entries < most_entries }
        requires next { IsNext J.plan caller (count_of caller self.old.entries) line (played.caller (CallerEvent.Pick call word)) self.old.entries }
        ensures { OnOk result (Adds caller line (answered_call (setting_of J.boot J.target) self.old.entries (CallerEvent.Pick call word)) self.old self.new) }
    {
        let lane = &mut self.lanes[caller as usize];
        match self.book.pick(lane, line, call, word) {
            Ok(_) => Ok(()),
            Err(fault) => Err(memory_of(fault)),
        }
    }

    /// Has a caller's call leave its cluster.
    pub(crate) fn commit(&mut self, caller: u16, line: u32, call: CallId) -> Result<(), Memory>
        requires caller { 0 < caller }
        requires known { caller < length self.old.counts }
        requires goes { self.old.is_spent ≡ false }
        requires room { length self.old.entries < most_entries }
        requires next { IsNext J.plan caller (count_of caller self.old.entries) line (played.caller (CallerEvent.Commit call)) self.old.entries }
        ensures { OnOk result (Adds caller line (answered_call (setting_of J.boot J.target) self.old.entries (CallerEvent.Commit call)) self.old self.new) }
    {
        let lane = &mut self.lanes[caller as usize];
        match self.book.commit(lane, line, call) {
            Ok(_) => Ok(()),
            Err(fault) => Err(memory_of(fault)),
        }
    }

    /// The journal, and the snapshots that were published.
    pub(crate) fn finish(self) -> (Journal, History<Snapshot>)
        ensures entries { result.0.entries ≡ self.entries }
        ensures right { Right (setting_of J.boot J.target) self.entries }
        ensures snapshots { values_of result.1.tickets ≡ snapshots_of (pages (setting_of J.boot J.target) self.entries) }
        ensures few { length result.1.tickets ≤ most_entries }
        ensures made { All (λ e. e.actor < length self.counts) self.entries }
        ensures played { IsPlayed J.plan self.entries }
    {
        self.book.finish(List::from_vec(self.lanes))
    }
}
