//! The steps of the driver.
ghost use Rattle.std.specs.Prelude.{◌≡◌, ◌↔◌, ◌<◌, ◌∷◌, ◌++◌, ℕ, List, length, take, All, IfOk, IfSome, IsTrue, OnErr, OnOk, Err, Some, true, false, option_copied, option_map, option_to_list};
ghost use Rattle.boxcar.specs.Table.{Shelves};
ghost use Rattle.snapshot_store.specs.Tickets.{IsTicketOf};
ghost use Rattle.call_journal.specs.declared.entry.Entry.{Entry as EntryValue};
ghost use Rattle.book_calls.specs.xds_history.Setting.{Setting, setting_of};
ghost use Rattle.book_calls.specs.xds_history.Pages.{pages};
ghost use Rattle.book_calls.specs.xds_history.Right.{Right};
ghost use Rattle.book_calls.specs.xds_history.HistoryLaws.{is_report};
ghost use Rattle.book_progress.specs.PlayedPlans.{IsNext};
ghost use Rattle.book_progress.specs.PlayedPlans as played;
ghost use Rattle.book_progress.specs.ProgressKept.{most_entries};
ghost use Rattle.book_calls.specs.CallsKept.{AreCallsAt};
ghost use Rattle.book_driver.specs.DriverKept.{reply_in};
ghost use Rattle.book_driver.specs.ShownTrees.{number_in, snapshot_by};
ghost use Rattle.book_driver.specs.ReferredClusters.{AreCalledAt};
ghost use Rattle.xds_book.specs.BookEntries.{Drives, IsFull, IsKnownTo, IsLaneOf, IsPreparedFor, IsStill, Makes, MakesNone, is_spent_after};
ghost use Rattle.xds_book.specs.Publishing.{IsComplete, Publishes, Renews, snapshot_in};

use crate::book_faults::BookFault;
use crate::channel_book::Book;
use crate::jobs::Job;
use crate::lane_entries::add_entry;
use crate::lanes::Lane;
use crate::refused_texts::add_to_both;
use book_calls::{Calls, Prepared};
use book_driver::{CallRefs, Published, Stepped};
use book_picks::Turns;
use call_journal::{DriverEvent, DriverReply, What};
use cluster_tree::{Snapshot, Trees};
use snapshot_store::{Archive, Ticket};
use std::alloc::{AllocError, Global};
use std::sync::Wait;
use std::sync::ledger::Ledger;
use xc_base::{List, Memory, Shared, Steps, Text};

/// What calls refer to, and whether it may be other clusters than at the driver's entry before.
fn call_refs(calls: &Calls) -> CallRefs<'_>
    ensures { (archive : Shelves) (s : Setting) (past : List EntryValue) → Right s past → AreCallsAt archive (pages s past) calls.now → AreCalledAt (pages s past) result }
{
    CallRefs {
        refs: &calls.refs,
        may_differ: calls.may_differ(),
    }
}

/// The number of the snapshot that is published, if one is.
fn number_of(published: &Option<Published>) -> Option<u32>
    ensures { result ≡ number_in published.now }
{
    match published {
        Some(published) => Some(published.number),
        None => None,
    }
}

/// The reply of a step, and what is published by it.
fn answer_of(
    alloc: Global,
    stepped: Stepped,
) -> Result<(Shared<DriverReply>, Option<Published>), Memory>
    ensures reply { IfOk result (λ answer. answer.0 ≡ reply_in stepped) }
    ensures published { IfOk result (λ answer. answer.1 ≡ stepped.published) }
{
    let Stepped {
        verdict,
        sent,
        missing,
        refused,
        published,
    } = stepped;
    let snapshot = number_of(&published);
    let reply = DriverReply {
        verdict,
        sent,
        missing,
        snapshot,
        refused,
    };
    Ok((Shared::new(alloc, reply)?, published))
}

/// Stores the snapshot that is published, if one is, once what is kept of picks has followed it.
fn store<R: Wait + Sync>(
    rt: &R,
    archive: &Archive<Snapshot>,
    turns: &mut Turns,
    trees: &Trees,
    published: Option<Published>,
) -> Result<Option<Ticket<Snapshot>>, Memory>
    requires { IfSome published IsComplete }
    ensures stored { IfOk result (λ ticket. IfSome ticket (IsTicketOf archive.now)) }
    ensures value { IfOk result (λ ticket. snapshot_in ticket ≡ option_map snapshot_by published) }
    ensures turns { OnOk result (Renews trees.entry.now published turns.old turns.new) }
{
    let Some(published) = published else {
        return Ok(None);
    };
    let Published {
        number,
        config,
        views,
        marks,
        is_renamed,
    } = published;
    let snapshot = Snapshot {
        number,
        config,
        trees: views,
    };
    turns.renew(trees, &snapshot, &marks, is_renamed)?;
    match archive.push(rt, snapshot) {
        Ok(ticket) => Ok(Some(ticket)),
        Err(_) => Err(AllocError),
    }
}

/// Has calls take the snapshot of a ticket, if there is one, and see what they refer to.
fn publish(
    archive: &Archive<Snapshot>,
    calls: &mut Calls,
    ticket: Option<Ticket<Snapshot>>,
) -> Result<(), Memory>
    requires { IfSome ticket (IsTicketOf archive.now) }
    ensures kept { OnOk result (Publishes archive.now ticket calls.old calls.new) }
    ensures tickets { OnOk result (calls.new.tickets ≡ calls.old.tickets ++ option_to_list ticket) }
    ensures err { OnErr result (calls.new ≡ calls.old) }
{
    let Some(ticket) = ticket else {
        calls.mark_seen();
        return Ok(());
    };
    calls.publish(archive, ticket)
}

impl<J: Job> Book<J> {
    /// Makes room for an entry of the driver. Want of memory ends the Book.
    fn make_driver_room(&mut self) -> Result<(), BookFault>
        ensures room { OnOk result (0 < self.new.spare) }
        ensures few { OnOk result (length self.old.entries < most_entries) }
        ensures goes_on { OnOk result (self.old.is_spent ≡ false) }
        ensures none { MakesNone self.old self.new }
        ensures spent { self.new.is_spent ≡ is_spent_after result self.old.is_spent }
        ensures ended { (result ≡ Err BookFault.Ended) ↔ IsTrue self.old.is_spent }
        ensures full { (result ≡ Err BookFault.Full) ↔ IsFull self.old }
    {
        match self.make_room() {
            Ok(()) => Ok(()),
            Err(BookFault::Memory) => {
                self.is_spent = true;
                Err(BookFault::Memory)
            }
            Err(fault) => Err(fault),
        }
    }

    /// Makes one entry of the driver, where there is room for it. Want of memory ends the Book.
    fn drive<R: Wait + Sync, L: Ledger>(
        &mut self,
        rt: &R,
        lane: &mut Lane<J>,
        line: u32,
        event: DriverEvent,
        prepared: Option<Prepared>,
        steps: &mut Steps<L>,
    ) -> Result<(), Memory>
        requires room { 0 < self.old.spare }
        requires few { length self.old.entries < most_entries }
        requires goes_on { self.old.is_spent ≡ false }
        requires driver { lane.old.actor ≡ 0 }
        requires counted { IsLaneOf lane.old self.old }
        requires known { IsKnownTo (length J.boot.authorities) event }
        requires prepared { IsPreparedFor event prepared }
        requires next { IsNext J.plan lane.old.actor lane.old.count line (played.driver event) self.old.entries }
        ensures entry { OnOk result (Drives line event prepared self.old self.new lane.old lane.new) }
        ensures tickets { OnOk result (take (length self.old.tickets) self.new.tickets ≡ self.old.tickets) }
        ensures none { OnErr result (MakesNone self.old self.new) }
        ensures lane { OnErr result (lane.new ≡ lane.old) }
        ensures spent { OnErr result (self.new.is_spent ≡ true) }
        ensures still { IsTrue (is_report event) → IsStill (setting_of J.boot J.target) self.old.entries → steps.new ≡ steps.old }
    {
        self.is_spent = true;
        let latest = self.calls.latest_number();
        let calls = call_refs(&self.calls);
        let stepped = self.driver.step(&event, prepared, calls, latest, steps)?;
        let (reply, published) = answer_of(self.alloc, stepped)?;
        let trees = &self.driver.trees.trees.trees;
        let ticket = store(rt, self.archive.get(), &mut self.turns, trees, published)?;
        let before = (self.refused.len(), lane.refused.len());
        add_to_both(
            &mut self.refused,
            &mut lane.refused,
            reply.get().refused.as_slice(),
        )?;
        if publish(self.archive.get(), &mut self.calls, ticket).is_err() {
            self.refused.truncate(before.0);
            lane.refused.truncate(before.1);
            return Err(AllocError);
        }
        add_entry(&mut self.journal, lane, line, What::Driver { event, reply });
        self.is_spent = false;
        Ok(())
    }

    /// Makes one entry of the driver, and gives its number in the journal, from 1. After want of memory the Book takes no more
    /// entries.
    pub fn apply<R: Wait + Sync, L: Ledger>(
        &mut self,
        rt: &R,
        lane: &mut Lane<J>,
        line: u32,
        event: DriverEvent,
        prepared: Option<Prepared>,
        steps: &mut Steps<L>,
    ) -> Result<u32, BookFault>
        requires driver { lane.old.actor ≡ 0 }
        requires counted { IsLaneOf lane.old self.old }
        requires known { IsKnownTo (length J.boot.authorities) event }
        requires prepared { IsPreparedFor event prepared }
        requires next { IsNext J.plan lane.old.actor lane.old.count line (played.driver event) self.old.entries }
        ensures entry { OnOk result (Drives line event prepared self.old self.new lane.old lane.new) }
        ensures number { IfOk result (λ number. number ≡ length self.new.entries) }
        ensures tickets { OnOk result (take (length self.old.tickets) self.new.tickets ≡ self.old.tickets) }
        ensures none { OnErr result (MakesNone self.old self.new) }
        ensures lane { OnErr result (lane.new ≡ lane.old) }
        ensures spent { self.new.is_spent ≡ is_spent_after result self.old.is_spent }
        ensures ended { (result ≡ Err BookFault.Ended) ↔ IsTrue self.old.is_spent }
        ensures full { (result ≡ Err BookFault.Full) ↔ IsFull self.old }
        // a report where nothing else can have changed
        ensures still { IsTrue (is_report event) → IsStill (setting_of J.boot J.target) self.old.entries → steps.new ≡ steps.old }
    {
        self.make_driver_room()?;
        self.drive(rt, lane, line, event, prepared, steps)?;
        Ok(self.journal.len())
    }
}
