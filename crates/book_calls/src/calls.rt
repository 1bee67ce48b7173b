//! What is kept of calls: pins, holds, and the snapshots that were published.
ghost use Rattle.std.specs.Prelude.{◌≡◌, ◌∷◌, ◌++◌, ℕ, List, [], Some, None, OnOk, OnErr, IfOk, IfSome, false, option_map};
ghost use Rattle.std.specs.Option.{option_copied};
ghost use Rattle.boxcar.specs.Table.{Shelves};
ghost use Rattle.snapshot_store.specs.Tickets.{AreTicketsOf, IsTicketOf, values_of};
ghost use Rattle.call_journal.specs.declared.entry.Entry.{Entry as EntryValue};
ghost use Rattle.call_journal.specs.declared.entry.What.{What as Happening};
ghost use Rattle.call_journal.specs.declared.event.CallerEvent.{CallerEvent as Asking};
ghost use Rattle.call_journal.specs.declared.event.DriverEvent.{DriverEvent as Driving};
ghost use Rattle.call_journal.specs.declared.reply.CallerReply.{CallerReply as Reply};
ghost use Rattle.call_journal.specs.declared.reply.DriverReply.{DriverReply};
ghost use Rattle.xds_history.specs.Setting.{Setting};
ghost use Rattle.xds_history.specs.declared.page.Page.{Page};
ghost use Rattle.xds_history.specs.Page.{latest, latest_number};
ghost use Rattle.xds_history.specs.References.{held, names_in, pinned, references, references_seen, snapshot_at, snapshots_of};
ghost use Rattle.xds_history.specs.Pages.{called, driven, page_of, pages};
ghost use Rattle.xds_history.specs.Right.{Right, caller_reply, commit_reply, pin_reply};
ghost use Rattle.book_calls.specs.CallsKept.{AreCallsAt, AreOwn, IsLatestOf, IsRouted, IsTicketAt};

use crate::host_clusters::routed_to;
use crate::latest_snapshot::{Latest, latest_of, names_of};
use crate::pinning::{Pinning, end_pinning, pinning_of, set_pinning};
use crate::ref_steps::{end_hold, holds_stay, set_hold, set_pin};
use call_journal::CallerReply;
use cluster_refs::Refs;
use cluster_tree::Snapshot;
use route_match::RouteAnswer;
use snapshot_store::{Archive, Ticket};
use std::alloc::Global;
use std::collections::BTreeMap;
use xc_base::{Call, CallId, List, Memory, Shared, Text};

/// What is kept of calls.
#[derive(Drop)]
pub struct Calls {
    pub alloc: Global,
    /// What each open pin names, and what each call holds.
    pub refs: Refs,
    /// The open pins, with their tickets.
    pub pins: BTreeMap<CallId, Pinning>,
    /// The tickets of the snapshots that were published, the oldest first.
    pub tickets: List<Ticket<Snapshot>>,
    /// The snapshot that was published last.
    pub latest: Option<Latest>,
    /// Whether calls are known to hold the same clusters as at the driver's last entry.
    pub holds_stay: bool,
    /// Whether no pin was open at the driver's last entry.
    pub was_unpinned: bool,
}

impl Calls {
    /// No calls and no snapshots. It takes no memory.
    pub fn new(alloc: Global) -> Calls
        ensures kept { (archive : Shelves) → AreCallsAt archive [] result }
        ensures tickets { result.tickets ≡ [] }
    {
        Calls {
            alloc,
            refs: Refs::new(alloc),
            pins: BTreeMap::new(alloc),
            tickets: List::new(alloc),
            latest: None,
            holds_stay: true,
            was_unpinned: true,
        }
    }

    /// The clusters that the host of the latest snapshot names, which are kept from then on. There are none where no snapshot was
    /// published.
    fn latest_names(
        &mut self,
        archive: &Archive<Snapshot>,
    ) -> Result<Option<Shared<List<Text>>>, Memory>
        requires own { AreOwn archive.now self.old }
        ensures names { IfOk result (λ names. names ≡ option_map (λ l. names_in l.ticket.value) self.old.latest) }
        ensures own { AreOwn archive.now self.new }
        ensures kept { (ps : List Page) → AreCallsAt archive.now ps self.old → AreCallsAt archive.now ps self.new }
        ensures tickets { self.new.tickets ≡ self.old.tickets }
        ensures latest { option_map (λ l. l.ticket.value) self.new.latest ≡ option_map (λ l. l.ticket.value) self.old.latest }
    {
        let Some(latest) = &mut self.latest else {
            return Ok(None);
        };
        let names = names_of(self.alloc, archive, latest)?;
        latest.names = Some(names.share()?);
        Ok(Some(names))
    }

    /// A call pins the latest snapshot, where one was published, whose host names these clusters. It fails for want of memory
    /// alone, and then what is kept is kept still.
    fn pin_latest(
        &mut self,
        call: &Call,
        names: Option<Shared<List<Text>>>,
    ) -> Result<Option<Pinning>, Memory>
        requires latest { IfSome self.old.latest (IsLatestOf self.old.tickets self.old.refs) }
        requires names { names ≡ option_map (λ l. names_in l.ticket.value) self.old.latest }
        ensures reply { IfOk result (λ pin. (archive : Shelves) (ps : List Page) → AreCallsAt archive ps self.old → pin_reply (option_map (λ p. p.number) pin) ≡ caller_reply ps (Asking.Pin call.now)) }
        ensures reads { IfOk result (λ pin. (archive : Shelves) (ps : List Page) → AreCallsAt archive ps self.old → option_map (λ p. p.ticket.value) pin ≡ latest ps) }
        ensures ticket { IfOk result (λ pin. IfSome pin (λ p. (archive : Shelves) (ps : List Page) → AreCallsAt archive ps self.old → IsTicketOf archive p.ticket)) }
        ensures own { IfOk result (λ pin. IfSome pin (λ p. IsTicketAt self.old.tickets p.number p.ticket)) }
        ensures kept { OnOk result ((archive : Shelves) (s : Setting) (past : List EntryValue) (actor line : ℕ) (reply : Reply) → Right s past → pinned (pages s past) call.now.id ≡ None → held (pages s past) call.now.id ≡ None →
            reply ≡ caller_reply (pages s past) (Asking.Pin call.now) → AreCallsAt archive (pages s past) self.old → AreCallsAt archive (pages s (called actor line (Asking.Pin call.now) reply ∷ past)) self.new) }
        ensures tickets { self.new.tickets ≡ self.old.tickets }
        ensures err { OnErr result ((archive : Shelves) (ps : List Page) → pinned ps call.now.id ≡ None → AreCallsAt archive ps self.old → AreCallsAt archive ps self.new) }
    {
        let (Some(latest), Some(names)) = (&self.latest, &names) else {
            return Ok(None);
        };
        let kept = pinning_of(latest.number, &latest.ticket)?;
        let given = pinning_of(latest.number, &latest.ticket)?;
        set_pin(&mut self.refs, call.id, latest.number, names)?;
        match set_pinning(&mut self.pins, call.id, kept) {
            Ok(()) => Ok(Some(given)),
            Err(fault) => {
                self.refs.unpin(call.id);
                Err(fault)
            }
        }
    }

    /// A call pins the latest snapshot, where one was published. It fails for want of memory alone, and then what is kept is
    /// kept still.
    pub fn pin(
        &mut self,
        archive: &Archive<Snapshot>,
        call: &Call,
    ) -> Result<Option<Pinning>, Memory>
        requires own { AreOwn archive.now self.old }
        ensures reply { IfOk result (λ pin. (ps : List Page) → AreCallsAt archive.now ps self.old → pin_reply (option_map (λ p. p.number) pin) ≡ caller_reply ps (Asking.Pin call.now)) }
        ensures reads { IfOk result (λ pin. (ps : List Page) → AreCallsAt archive.now ps self.old → option_map (λ p. p.ticket.value) pin ≡ latest ps) }
        ensures ticket { IfOk result (λ pin. IfSome pin (λ p. (ps : List Page) → AreCallsAt archive.now ps self.old → IsTicketOf archive.now p.ticket)) }
        ensures own { IfOk result (λ pin. IfSome pin (λ p. IsTicketAt self.old.tickets p.number p.ticket)) }
        ensures kept { OnOk result ((s : Setting) (past : List EntryValue) (actor line : ℕ) (reply : Reply) → Right s past → pinned (pages s past) call.now.id ≡ None → held (pages s past) call.now.id ≡ None →
            reply ≡ caller_reply (pages s past) (Asking.Pin call.now) → AreCallsAt archive.now (pages s past) self.old → AreCallsAt archive.now (pages s (called actor line (Asking.Pin call.now) reply ∷ past)) self.new) }
        ensures tickets { self.new.tickets ≡ self.old.tickets }
        ensures err { OnErr result ((ps : List Page) → pinned ps call.now.id ≡ None → AreCallsAt archive.now ps self.old → AreCallsAt archive.now ps self.new) }
    {
        let names = self.latest_names(archive)?;
        let pin = self.pin_latest(call, names)?;
        Ok(pin)
    }

    /// The call's open pin, if there is one. It takes no memory.
    pub fn pinned(&self, call: CallId) -> Option<&Pinning>
        ensures number { (archive : Shelves) (ps : List Page) → AreCallsAt archive ps self.now → option_map (λ p. p.number) (option_copied result) ≡ pinned ps call }
        ensures reads { IfSome (option_copied result) (λ p. (archive : Shelves) (s : Setting) (past : List EntryValue) → Right s past → AreCallsAt archive (pages s past) self.now → snapshot_at p.number (pages s past) ≡ Some p.ticket.value) }
        ensures ticket { IfSome (option_copied result) (λ p. (archive : Shelves) (ps : List Page) → AreCallsAt archive ps self.now → IsTicketOf archive p.ticket) }
        ensures own { IfSome (option_copied result) (λ p. (archive : Shelves) (ps : List Page) → AreCallsAt archive ps self.now → IsTicketAt self.now.tickets p.number p.ticket) }
    {
        self.pins.get(&call)
    }

    /// A call leaves its pin, and holds the cluster of its route, where the route has one. The answer is that of the route in
    /// the snapshot of the pin. It fails for want of memory alone, and then what is kept is kept still.
    pub fn hold(
        &mut self,
        archive: &Archive<Snapshot>,
        call: &Call,
        answer: &RouteAnswer,
    ) -> Result<CallerReply, Memory>
        requires own { AreOwn archive.now self.old }
        ensures reply { IfOk result (λ reply. (s : Setting) (past : List EntryValue) → Right s past → IsRouted (pages s past) call.now answer.now → AreCallsAt archive.now (pages s past) self.old → reply ≡ caller_reply (pages s past) (Asking.Hold call.now)) }
        ensures kept { OnOk result ((s : Setting) (past : List EntryValue) (actor line : ℕ) (reply : Reply) → Right s past → IsRouted (pages s past) call.now answer.now →
            reply ≡ caller_reply (pages s past) (Asking.Hold call.now) → AreCallsAt archive.now (pages s past) self.old → AreCallsAt archive.now (pages s (called actor line (Asking.Hold call.now) reply ∷ past)) self.new) }
        ensures tickets { self.new.tickets ≡ self.old.tickets }
        ensures err { OnErr result ((ps : List Page) → AreCallsAt archive.now ps self.old → AreCallsAt archive.now ps self.new) }
    {
        let Some(pinning) = self.pins.get(&call.id) else {
            return Ok(CallerReply::NoSnapshot);
        };
        let number = pinning.number;
        let snapshot = archive.read(&pinning.ticket);
        let name = routed_to(&snapshot.config.get().front, answer);
        let stays = holds_stay(self.holds_stay, &self.refs, name);
        set_hold(&mut self.refs, call.id, name)?;
        end_pinning(&mut self.pins, call.id);
        self.holds_stay = stays;
        Ok(CallerReply::Routed {
            snapshot: number,
            answer: *answer,
        })
    }

    /// A call leaves the cluster that it holds. It answers whether it held one, and takes no memory.
    pub fn commit(&mut self, call: CallId) -> bool
        ensures reply { (archive : Shelves) (ps : List Page) → AreCallsAt archive ps self.old → commit_reply result ≡ caller_reply ps (Asking.Commit call) }
        ensures kept { (archive : Shelves) (s : Setting) (past : List EntryValue) (actor line : ℕ) (reply : Reply) → AreCallsAt archive (pages s past) self.old → AreCallsAt archive (pages s (called actor line (Asking.Commit call) reply ∷ past)) self.new }
        ensures tickets { self.new.tickets ≡ self.old.tickets }
    {
        let released = end_hold(&mut self.refs, call);
        self.holds_stay = holds_stay(self.holds_stay, &self.refs, released.as_ref());
        released.is_some()
    }

    /// The cluster that the call holds, if it holds one. It takes no memory.
    pub fn held(&self, call: CallId) -> Option<&Text>
        ensures { (archive : Shelves) (ps : List Page) → AreCallsAt archive ps self.now → option_copied result ≡ held ps call }
    {
        let name = self.refs.held(call);
        name
    }

    /// The ticket of the latest snapshot, if one was published. It takes no memory.
    pub fn latest(&self) -> Option<&Ticket<Snapshot>>
        ensures value { (archive : Shelves) (ps : List Page) → AreCallsAt archive ps self.now → option_map (λ t. t.value) (option_copied result) ≡ latest ps }
        ensures ticket { IfSome (option_copied result) (λ t. (archive : Shelves) (ps : List Page) → AreCallsAt archive ps self.now → IsTicketOf archive t) }
    {
        match &self.latest {
            Some(latest) => Some(&latest.ticket),
            None => None,
        }
    }

    /// The number of the latest snapshot, if one was published. It takes no memory.
    pub fn latest_number(&self) -> Option<u32>
        ensures { (archive : Shelves) (ps : List Page) → AreCallsAt archive ps self.now → result ≡ latest_number ps }
    {
        match &self.latest {
            Some(latest) => Some(latest.number),
            None => None,
        }
    }

    /// Whether calls may refer to other clusters than at the driver's last entry. They don't where no pin is open and none was
    /// open then, and each cluster that a call began to hold or left since is held by other calls, too. It takes no memory.
    pub fn may_differ(&self) -> bool
        ensures { (archive : Shelves) (s : Setting) (past : List EntryValue) → Right s past → AreCallsAt archive (pages s past) self.now → result ≡ false → references (pages s past) ≡ references_seen (pages s past) }
    {
        if !self.holds_stay || !self.was_unpinned {
            return true;
        }
        !self.pins.is_empty()
    }

    /// The driver has seen what calls refer to, at an entry that publishes nothing. It takes no memory.
    pub fn mark_seen(&mut self)
        ensures kept { (archive : Shelves) (s : Setting) (past : List EntryValue) (actor line : ℕ) (event : Driving) (reply : DriverReply) → Right s (driven actor line event reply ∷ past) →
            (page_of s (driven actor line event reply) (Happening.Driver event reply) past (pages s past)).snapshot ≡ None → AreCallsAt archive (pages s past) self.old → AreCallsAt archive (pages s (driven actor line event reply ∷ past)) self.new }
        ensures tickets { self.new.tickets ≡ self.old.tickets }
    {
        self.holds_stay = true;
        self.was_unpinned = self.pins.is_empty();
    }

    /// A driver's entry publishes the snapshot of this ticket, and the driver has seen what calls refer to. It fails for want of
    /// memory alone, and then nothing changes.
    pub fn publish(
        &mut self,
        archive: &Archive<Snapshot>,
        ticket: Ticket<Snapshot>,
    ) -> Result<(), Memory>
        requires { IsTicketOf archive.now ticket }
        ensures kept { OnOk result ((s : Setting) (past : List EntryValue) (actor line : ℕ) (event : Driving) (reply : DriverReply) → Right s (driven actor line event reply ∷ past) →
            (page_of s (driven actor line event reply) (Happening.Driver event reply) past (pages s past)).snapshot ≡ Some ticket.value → AreCallsAt archive.now (pages s past) self.old →
            AreCallsAt archive.now (pages s (driven actor line event reply ∷ past)) self.new) }
        ensures tickets { OnOk result (self.new.tickets ≡ self.old.tickets ++ ticket ∷ []) }
        ensures err { OnErr result (self.new ≡ self.old) }
    {
        let latest = latest_of(archive, &ticket)?;
        self.tickets.push(ticket)?;
        self.latest = Some(latest);
        self.holds_stay = true;
        self.was_unpinned = self.pins.is_empty();
        Ok(())
    }

    /// The tickets of the snapshots that were published, the oldest first. It takes no memory.
    pub fn into_tickets(self) -> List<Ticket<Snapshot>>
        ensures same { result ≡ self.tickets }
        ensures tickets { (archive : Shelves) (ps : List Page) → AreCallsAt archive ps self → AreTicketsOf archive result }
        ensures snapshots { (archive : Shelves) (ps : List Page) → AreCallsAt archive ps self → values_of result ≡ snapshots_of ps }
    {
        self.tickets
    }
}
