//! The steps of callers.
ghost use Rattle.std.specs.Prelude.{◌≡◌, ◌↔◌, ◌<◌, ◌≢◌, All, IfErr, IfOk, IfSome, IsTrue, OnErr, OnOk, Err, None, false, option_copied, option_map};
ghost use Rattle.route_match.specs.Routes.{route};
ghost use Rattle.call_journal.specs.declared.event.CallerEvent.{CallerEvent as Asking};
ghost use Rattle.book_calls.specs.xds_history.Setting.{setting_of};
ghost use Rattle.book_calls.specs.xds_history.Pages.{pages};
ghost use Rattle.book_calls.specs.xds_history.References.{held, pinned};
ghost use Rattle.book_calls.specs.xds_history.Right.{caller_reply, commit_reply, pin_reply};
ghost use Rattle.book_progress.specs.PlayedPlans.{IsNext};
ghost use Rattle.book_progress.specs.PlayedPlans as played;
ghost use Rattle.book_calls.specs.CallsKept.{AreOwn, IsRouted};
ghost use Rattle.snapshot_store.specs.Tickets.{IsTicketOf};
ghost use Rattle.xds_book.specs.BookViews.{pinned_front};
ghost use Rattle.xds_book.specs.BookKept.{IsLawfulShown};
ghost use Rattle.xds_book.specs.PinSteps.{IsOwnPin, token_with};
ghost use Rattle.xds_book.specs.BookEntries.{HasPlaceOf, IsAnswerIn, IsFull, IsLaneOf, IsTokenOf, Makes, MakesNone, answered_call, fault_of, own_ticket};

use crate::book_faults::BookFault;
use crate::channel_book::Book;
use crate::jobs::Job;
use crate::lane_entries::add_entry;
use crate::lanes::Lane;
use crate::pinned_calls::Pinned;
use book_calls::{Calls, Pinning, TicketRoute, own_route};
use call_journal::{CallerEvent, CallerReply, What};
use cluster_tree::Snapshot;
use route_match::RouteAnswer;
use snapshot_store::Archive;
use std::alloc::Global;
use std::marker::PhantomData;
use std::sync::ledger::Ledger;
use xc_base::{Call, CallId, Memory, Shared, Steps};

/// The reply to a pin.
fn pin_reply(pin: &Option<Pinning>) -> CallerReply
    ensures { result ≡ pin_reply (option_map (λ p. p.number) pin.now) }
{
    match pin {
        Some(pin) => CallerReply::Pinned(pin.number),
        None => CallerReply::NoSnapshot,
    }
}

/// The reply to a commit of a call that held a cluster, or held none.
fn commit_reply(had: bool) -> CallerReply
    ensures { result ≡ commit_reply had }
{
    if had {
        return CallerReply::Released;
    }
    CallerReply::NotHeld
}

/// The latest snapshot, if one was published.
fn latest_of<'a>(archive: &'a Archive<Snapshot>, calls: &Calls) -> Option<&'a Snapshot>
    requires own { AreOwn archive.now calls.now }
    requires lawful { All (λ ticket. IsLawfulShown ticket.value) calls.now.tickets }
    ensures value { option_copied result ≡ option_map (λ latest. latest.ticket.value) calls.now.latest }
    ensures lawful { IfSome (option_copied result) IsLawfulShown }
{
    match &calls.latest {
        Some(latest) => Some(archive.read(&latest.ticket)),
        None => None,
    }
}

/// The token of a pin.
fn token_of<J: Job>(
    alloc: Global,
    archive: Shared<Archive<Snapshot>>,
    call: Shared<Call>,
    pin: Option<Pinning>,
) -> Option<Pinned<J>>
    requires archive { archive ≡ J.archive }
    requires stored { IfSome pin (λ p. IsTicketOf J.archive p.ticket) }
    requires lawful { IfSome pin (λ p. IsLawfulShown p.ticket.value) }
    ensures { result ≡ option_map (token_with call) pin }
{
    let Pinning { ticket, .. } = pin?;
    Some(Pinned {
        alloc,
        call,
        ticket,
        archive,
        of: PhantomData,
    })
}

impl<J: Job> Book<J> {
    /// Pins the latest snapshot for a call. The token is None exactly where none was published.
    pub fn pin(
        &mut self,
        lane: &mut Lane<J>,
        line: u32,
        call: Shared<Call>,
    ) -> Result<Option<Pinned<J>>, BookFault>
        requires caller { 0 < lane.old.actor }
        requires counted { IsLaneOf lane.old self.old }
        requires next { IsNext J.plan lane.old.actor lane.old.count line (played.caller (Asking.Pin call)) self.old.entries }
        requires free { pinned (pages (setting_of J.boot J.target) self.old.entries) call.id ≡ None }
        requires idle { held (pages (setting_of J.boot J.target) self.old.entries) call.id ≡ None }
        ensures entry { OnOk result (Makes line (answered_call (setting_of J.boot J.target) self.old.entries (Asking.Pin call)) self.old self.new lane.old lane.new) }
        ensures token { IfOk result (λ token. IsTokenOf (setting_of J.boot J.target) self.old self.new call token) }
        ensures tickets { self.new.tickets ≡ self.old.tickets }
        ensures none { OnErr result (MakesNone self.old self.new) }
        ensures lane { OnErr result (lane.new ≡ lane.old) }
        ensures spent { self.new.is_spent ≡ self.old.is_spent }
        ensures ended { (result ≡ Err BookFault.Ended) ↔ IsTrue self.old.is_spent }
        ensures full { (result ≡ Err BookFault.Full) ↔ IsFull self.old }
    {
        self.make_room()?;
        let archive = self.archive.share()?;
        let kept = call.share()?;
        let pin = self.calls.pin(self.archive.get(), call.get())?;
        let reply = pin_reply(&pin);
        let event = CallerEvent::Pin(call);
        add_entry(&mut self.journal, lane, line, What::Caller { event, reply });
        Ok(token_of(self.alloc, archive, kept, pin))
    }

    /// Has a call hold the cluster of its route, and takes its pin down. The answer is that of the token's `route`. Where the
    /// Book has pinned another snapshot for the call than the token's, the route is found anew in it. After a fault the token
    /// comes back.
    pub fn hold<L: Ledger>(
        &mut self,
        lane: &mut Lane<J>,
        line: u32,
        token: Pinned<J>,
        answer: RouteAnswer,
        steps: &mut Steps<L>,
    ) -> Result<RouteAnswer, (BookFault, Pinned<J>)>
        requires caller { 0 < lane.old.actor }
        requires counted { IsLaneOf lane.old self.old }
        requires next { IsNext J.plan lane.old.actor lane.old.count line (played.caller (Asking.Hold token.call)) self.old.entries }
        requires answer { answer ≡ route (pinned_front token) token.call }
        requires up { pinned (pages (setting_of J.boot J.target) self.old.entries) token.call.id ≢ None }
        ensures entry { OnOk result (Makes line (answered_call (setting_of J.boot J.target) self.old.entries (Asking.Hold token.call)) self.old self.new lane.old lane.new) }
        ensures reply { IfOk result (λ answer. IsAnswerIn answer (caller_reply (pages (setting_of J.boot J.target) self.old.entries) (Asking.Hold token.call))) }
        ensures tickets { self.new.tickets ≡ self.old.tickets }
        // the token's ticket is the Book's own
        ensures cost { HasPlaceOf (own_ticket (setting_of J.boot J.target) self.old token.call.id) token.ticket → steps.new ≡ steps.old }
        ensures back { IfErr result (λ refused. refused.1 ≡ token) }
        ensures none { OnErr result (MakesNone self.old self.new) }
        ensures lane { OnErr result (lane.new ≡ lane.old) }
        ensures spent { self.new.is_spent ≡ self.old.is_spent }
        ensures ended { (fault_of result ≡ Some BookFault.Ended) ↔ IsTrue self.old.is_spent }
        ensures full { (fault_of result ≡ Some BookFault.Full) ↔ IsFull self.old }
    {
        match self.hold_by(lane, line, &token, answer, steps) {
            Ok(answer) => Ok(answer),
            Err(fault) => Err((fault, token)),
        }
    }

    /// The same with a token that stays.
    fn hold_by<L: Ledger>(
        &mut self,
        lane: &mut Lane<J>,
        line: u32,
        token: &Pinned<J>,
        answer: RouteAnswer,
        steps: &mut Steps<L>,
    ) -> Result<RouteAnswer, BookFault>
        requires caller { 0 < lane.old.actor }
        requires counted { IsLaneOf lane.old self.old }
        requires next { IsNext J.plan lane.old.actor lane.old.count line (played.caller (Asking.Hold token.now.call)) self.old.entries }
        requires answer { answer ≡ route (pinned_front token.now) token.now.call }
        requires up { pinned (pages (setting_of J.boot J.target) self.old.entries) token.now.call.id ≢ None }
        ensures entry { OnOk result (Makes line (answered_call (setting_of J.boot J.target) self.old.entries (Asking.Hold token.now.call)) self.old self.new lane.old lane.new) }
        ensures reply { IfOk result (λ answer. IsAnswerIn answer (caller_reply (pages (setting_of J.boot J.target) self.old.entries) (Asking.Hold token.now.call))) }
        ensures tickets { self.new.tickets ≡ self.old.tickets }
        ensures cost { HasPlaceOf (own_ticket (setting_of J.boot J.target) self.old token.now.call.id) token.now.ticket → steps.new ≡ steps.old }
        ensures none { OnErr result (MakesNone self.old self.new) }
        ensures lane { OnErr result (lane.new ≡ lane.old) }
        ensures spent { self.new.is_spent ≡ self.old.is_spent }
        ensures ended { (result ≡ Err BookFault.Ended) ↔ IsTrue self.old.is_spent }
        ensures full { (result ≡ Err BookFault.Full) ↔ IsFull self.old }
    {
        self.make_room()?;
        let call = token.call.share()?;
        let answer = self.own_answer(token, answer, steps)?;
        let reply = self.calls.hold(self.archive.get(), call.get(), &answer)?;
        let event = CallerEvent::Hold(call);
        add_entry(&mut self.journal, lane, line, What::Caller { event, reply });
        Ok(answer)
    }

    /// The Book's own pin of a call, if the call has one.
    fn own_pin(&self, call: CallId) -> Option<&Pinning>
        requires { self.now.is_spent ≡ false }
        ensures number { option_map (λ pin. pin.number) (option_copied result) ≡ pinned (pages (setting_of J.boot J.target) self.now.entries) call }
        ensures some { IfSome (option_copied result) (λ pin. IsOwnPin J.archive (setting_of J.boot J.target) self.now call pin) }
    {
        let pin = self.calls.pinned(call);
        pin
    }

    /// Where the call of a token goes by the snapshot that the Book has pinned for it. The answer is the one by the token's
    /// snapshot, which is the same where the tickets are.
    fn own_answer<L: Ledger>(
        &self,
        token: &Pinned<J>,
        answer: RouteAnswer,
        steps: &mut Steps<L>,
    ) -> Result<RouteAnswer, Memory>
        requires goes_on { self.now.is_spent ≡ false }
        requires answer { answer ≡ route (pinned_front token.now) token.now.call }
        requires up { pinned (pages (setting_of J.boot J.target) self.now.entries) token.now.call.id ≢ None }
        ensures routed { IfOk result (IsRouted (pages (setting_of J.boot J.target) self.now.entries) token.now.call) }
        ensures reply { IfOk result (λ answer. IsAnswerIn answer (caller_reply (pages (setting_of J.boot J.target) self.now.entries) (Asking.Hold token.now.call))) }
        ensures cost { HasPlaceOf (own_ticket (setting_of J.boot J.target) self.now token.now.call.id) token.now.ticket → steps.new ≡ steps.old }
    {
        let Some(own) = self.own_pin(token.call().id) else {
            return Ok(answer);
        };
        let known = TicketRoute {
            ticket: &token.ticket,
            call: token.call(),
            answer,
        };
        own_route(self.alloc, self.archive.get(), &own.ticket, known, steps)
    }

    /// Picks an endpoint for a call, by the draws of a word. It takes no memory while some room is spare.
    pub fn pick(
        &mut self,
        lane: &mut Lane<J>,
        line: u32,
        call: CallId,
        word: u64,
    ) -> Result<CallerReply, BookFault>
        requires caller { 0 < lane.old.actor }
        requires counted { IsLaneOf lane.old self.old }
        requires next { IsNext J.plan lane.old.actor lane.old.count line (played.caller (Asking.Pick call word)) self.old.entries }
        ensures entry { OnOk result (Makes line (answered_call (setting_of J.boot J.target) self.old.entries (Asking.Pick call word)) self.old self.new lane.old lane.new) }
        ensures reply { IfOk result (λ reply. reply ≡ caller_reply (pages (setting_of J.boot J.target) self.old.entries) (Asking.Pick call word)) }
        ensures tickets { self.new.tickets ≡ self.old.tickets }
        ensures none { OnErr result (MakesNone self.old self.new) }
        ensures lane { OnErr result (lane.new ≡ lane.old) }
        ensures spent { self.new.is_spent ≡ self.old.is_spent }
        ensures ended { (result ≡ Err BookFault.Ended) ↔ IsTrue self.old.is_spent }
        ensures full { (result ≡ Err BookFault.Full) ↔ IsFull self.old }
        ensures room { 0 < self.old.spare → result ≢ Err BookFault.Memory }
    {
        self.make_room()?;
        let snapshot = latest_of(self.archive.get(), &self.calls);
        let cluster = self.calls.held(call);
        let reply = self.turns.pick(cluster, snapshot, word);
        let event = CallerEvent::Pick { call, word };
        add_entry(&mut self.journal, lane, line, What::Caller { event, reply });
        Ok(reply)
    }

    /// Has a call leave its cluster. It takes no memory while some room is spare.
    pub fn commit(
        &mut self,
        lane: &mut Lane<J>,
        line: u32,
        call: CallId,
    ) -> Result<CallerReply, BookFault>
        requires caller { 0 < lane.old.actor }
        requires counted { IsLaneOf lane.old self.old }
        requires next { IsNext J.plan lane.old.actor lane.old.count line (played.caller (Asking.Commit call)) self.old.entries }
        ensures entry { OnOk result (Makes line (answered_call (setting_of J.boot J.target) self.old.entries (Asking.Commit call)) self.old self.new lane.old lane.new) }
        ensures reply { IfOk result (λ reply. reply ≡ caller_reply (pages (setting_of J.boot J.target) self.old.entries) (Asking.Commit call)) }
        ensures tickets { self.new.tickets ≡ self.old.tickets }
        ensures none { OnErr result (MakesNone self.old self.new) }
        ensures lane { OnErr result (lane.new ≡ lane.old) }
        ensures spent { self.new.is_spent ≡ self.old.is_spent }
        ensures ended { (result ≡ Err BookFault.Ended) ↔ IsTrue self.old.is_spent }
        ensures full { (result ≡ Err BookFault.Full) ↔ IsFull self.old }
        ensures room { 0 < self.old.spare → result ≢ Err BookFault.Memory }
    {
        self.make_room()?;
        let reply = commit_reply(self.calls.commit(call));
        let event = CallerEvent::Commit(call);
        add_entry(&mut self.journal, lane, line, What::Caller { event, reply });
        Ok(reply)
    }
}
