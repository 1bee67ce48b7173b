//! The Book, and its steps.
ghost use Rattle.std.specs.Prelude.{◌≡◌, ◌↔◌, ◌+◌, ◌<◌, ◌≤◌, ◌≢◌, ◌^◌, ℕ, length, take, map, All, IfErr, IfOk, IfSome, IsTrue, OnErr, OnOk, Err, None, Ok, Some, false, slice_get};
ghost use Rattle.std.specs.List.{range_with_len};
ghost use Rattle.xc_base.specs.declared.names.Kind.TheVariants.{Listener};
ghost use Rattle.xds_bootstrap.specs.Authorities.{AreAuthorities};
ghost use Rattle.xds_name.specs.Names.{resource_key};
ghost use Rattle.route_match.specs.Routes.{route};
ghost use Rattle.snapshot_store.specs.Tickets.{values_of};
ghost use Rattle.call_journal.specs.declared.reply.CallerReply.{CallerReply as CallerReplyValue};
ghost use Rattle.book_calls.specs.xds_history.Setting.{setting_of};
ghost use Rattle.book_calls.specs.xds_history.Page.{latest};
ghost use Rattle.book_calls.specs.xds_history.Pages.{pages};
ghost use Rattle.book_calls.specs.xds_history.References.{held, pinned};
ghost use Rattle.book_calls.specs.xds_history.Responses.{refused_texts};
ghost use Rattle.book_calls.specs.xds_history.Right.{Right, caller_reply};
ghost use Rattle.book_calls.specs.xds_history.HistoryLaws.{is_report};
ghost use Rattle.book_progress.specs.EndedLines.{has_ended};
ghost use Rattle.book_progress.specs.PlayedPlans.{IsNext, IsPlayed, Step};
ghost use Rattle.book_progress.specs.PlayedPlans as played;
ghost use Rattle.book_progress.specs.ProgressKept.{counts_of, most_entries};
ghost use Rattle.book_calls.specs.xds_history.References.{snapshots_of};
ghost use Rattle.xds_book.specs.BookEntries.{Drives, HasPlaceOf, IsFull, IsKnownTo, IsLaneOf, IsPreparedFor, IsAnswerIn, IsStill, IsTokenOf, Makes, MakesNone, answered_call, fault_of, first_book, first_lane, is_spent_after, own_ticket};
ghost use Rattle.xds_book.specs.BookKept.{HasActors, HasComeTo, IsBy};
ghost use Rattle.call_clusters.specs.CallCourses.{HavePins, KeepsClusters};
ghost use Rattle.xds_book.specs.ReferencesKept.{KeepsHeld, KeepsNoOthers, KeepsPinned, LatestHasThem};

use crate::book_faults::BookFault;
use crate::jobs::Job;
use crate::lanes::{Lane, new_lanes};
use book_calls::{Calls, Prepared};
use book_driver::Driver;
use book_picks::Turns;
use book_progress::CountedJournal;
use call_journal::{Count, Journal};
use cluster_tree::Snapshot;
use route_match::RouteAnswer;
use snapshot_store::{Archive, History, Ticket};
use std::alloc::{AllocError, Global};
use std::marker::{Model, PhantomData};
use std::sync::Wait;
use std::sync::ledger::Ledger;
use xc_base::{Call, CallId, List, Memory, Same, Shared, Steps, Text};
use xds_bootstrap::Bootstrap;
use xds_name::Target;

/// The journal of a channel, the snapshots that it published, and what is kept of both. Contracts see the entries with the
/// newest first, how many more are taken without memory, a count for each actor, the tickets of the snapshots, the oldest
/// first, and whether want of memory in an earlier step of the driver has ended the Book.
#[derive(Drop)]
pub struct Book<J: Job> {
    pub(crate) alloc: Global,
    pub(crate) archive: Shared<Archive<Snapshot>>,
    pub(crate) journal: CountedJournal,
    pub(crate) calls: Calls,
    pub(crate) turns: Turns,
    pub(crate) driver: Driver,
    pub(crate) refused: List<Text>,
    pub(crate) is_spent: bool,
    of: PhantomData<J>,
}

impl<J: Job> Model for Book<J> {
    ghost use Rattle.book_calls.specs.xds_history.Setting.{setting_of};
    ghost use Rattle.xds_book.specs.BookViews.{BookView};
    ghost use Rattle.xds_book.specs.BookKept.{IsKeptIn};

    ghost Value = { BookView };

    ghost view = { λ b. record { entries = b.journal.entries; spare = b.journal.spare; counts = b.journal.counts; tickets = b.calls.tickets; is_spent = b.is_spent } };

    ghost invariant = { λ b. IsKeptIn J.plan J.archive (setting_of J.boot J.target) b.archive b.journal b.calls b.turns b.driver b.refused b.is_spent };
}

impl<J: Job> Book<J> {
    /// A Book in which nothing was done, with a lane for the driver and for each of so many callers. Its journal takes so many
    /// entries without memory.
    pub fn begin(
        alloc: Global,
        boot: Bootstrap,
        target: Target,
        callers: u16,
        room: u32,
        archive: Shared<Archive<Snapshot>>,
    ) -> Result<(Book<J>, List<Lane<J>>), Memory>
        requires authorities { AreAuthorities boot.authorities }
        requires listener { target.key ≡ resource_key boot.authorities Listener target.key.name }
        requires callers { callers ≤ 16 }
        requires room { room ≤ most_entries }
        requires archive { archive ≡ J.archive }
        requires boot { boot ≡ J.boot }
        requires target { target ≡ J.target }
        requires plan { HasActors J.plan (callers + 1) }
        ensures book { IfOk result (λ begun. begun.0 ≡ first_book (callers + 1) room) }
        ensures lanes { IfOk result (λ begun. begun.1 ≡ map first_lane (range_with_len 0 (callers + 1))) }
    {
        let actors = callers + 1;
        let journal = CountedJournal::new(alloc, actors, room)?;
        let driver = Driver::new(alloc, boot, target)?;
        let lanes = new_lanes(alloc, actors)?;
        let book = Book {
            alloc,
            archive,
            journal,
            calls: Calls::new(alloc),
            turns: Turns::new(alloc),
            driver,
            refused: List::new(alloc),
            is_spent: false,
            of: PhantomData,
        };
        Ok((book, lanes))
    }

    /// How many actors there are: the driver and the callers. Its clauses say what holds of every Book.
    pub fn actors(&self) -> usize
        ensures counts { result ≡ length self.now.counts }
        ensures plan { HasActors J.plan result }
        ensures counted { self.now.counts ≡ counts_of (length self.now.counts) self.now.entries }
        ensures played { IsPlayed J.plan self.now.entries }
        ensures right { Right (setting_of J.boot J.target) self.now.entries }
        ensures few { length self.now.entries ≤ most_entries }
    {
        self.journal.actors()
    }

    /// How far an actor has come. It takes no memory.
    pub fn count(&self, actor: u16) -> Count
        requires { actor < length self.now.counts }
        ensures { slice_get self.now.counts actor ≡ Some result }
    {
        let count = self.journal.count(actor);
        count
    }

    /// Whether the lane is of this Book. It takes no memory.
    pub fn is_of(&self, lane: &Lane<J>) -> bool
        ensures { IsTrue result ↔ IsLaneOf lane.now self.now }
    {
        if usize::from(lane.actor) >= self.journal.actors() {
            return false;
        }
        self.journal.count(lane.actor) == lane.count
    }

    /// Whether an entry ends the line. It takes no memory.
    pub fn line_done(&self, line: u32) -> bool
        ensures { result ≡ has_ended line self.now.entries }
    {
        self.journal.has_ended(line)
    }

    /// Whether the lane's refused texts are those of all entries, in order. It takes no memory.
    pub fn refused_as(&self, lane: &Lane<J>) -> bool
        ensures { IsTrue result ↔ (lane.now.refused ≡ refused_texts self.now.entries) }
    {
        lane.refused.same(&self.refused)
    }

    /// Makes room for an entry, where the Book takes one.
    pub(crate) fn make_room(&mut self) -> Result<(), BookFault>
        ensures room { OnOk result (0 < self.new.spare) }
        ensures few { OnOk result (length self.old.entries < most_entries) }
        ensures goes_on { OnOk result (self.old.is_spent ≡ false) }
        ensures none { MakesNone self.old self.new }
        ensures spent { self.new.is_spent ≡ self.old.is_spent }
        ensures ended { (result ≡ Err BookFault.Ended) ↔ IsTrue self.old.is_spent }
        ensures full { (result ≡ Err BookFault.Full) ↔ IsFull self.old }
        ensures memory { 0 < self.old.spare → result ≢ Err BookFault.Memory }
    {
        if self.is_spent {
            return Err(BookFault::Ended);
        }
        if self.journal.is_full() {
            return Err(BookFault::Full);
        }
        self.journal.reserve()?;
        Ok(())
    }

    /// The journal, and the snapshots that were published, of which ticket i from 0 reads the one of number i + 1. It takes no
    /// memory.
    pub fn finish(self, lanes: List<Lane<J>>) -> (Journal, History<Snapshot>)
        requires { All (λ lane. IsLaneOf lane self) lanes }
        ensures entries { result.0.entries ≡ self.entries }
        ensures tickets { result.1.tickets ≡ self.tickets }
        ensures archive { result.1.archive ≡ J.archive }
        ensures right { Right (setting_of J.boot J.target) self.entries }
        ensures snapshots { values_of self.tickets ≡ snapshots_of (pages (setting_of J.boot J.target) self.entries) }
        ensures few { length self.entries ≤ most_entries }
        ensures fewer { length self.tickets ≤ length self.entries }
        ensures actors { HasActors J.plan (length self.counts) }
        ensures made { All (IsBy (length self.counts)) self.entries }
        ensures counts { self.counts ≡ counts_of (length self.counts) self.entries }
        ensures played { IsPlayed J.plan self.entries }
        ensures lanes { All (HasComeTo J.plan self.entries) lanes }
        // the references
        ensures latest { LatestHasThem (setting_of J.boot J.target) self.entries }
        ensures pinned { KeepsPinned (setting_of J.boot J.target) self.entries }
        ensures held { KeepsHeld (setting_of J.boot J.target) self.entries }
        ensures others { KeepsNoOthers (setting_of J.boot J.target) self.entries }
        ensures clusters { KeepsClusters (setting_of J.boot J.target) self.entries }
        ensures pins { HavePins (setting_of J.boot J.target) self.entries }
    {
        let _lanes = lanes;
        let history = History {
            archive: self.archive,
            tickets: self.calls.into_tickets(),
        };
        (self.journal.into_journal(), history)
    }
}
