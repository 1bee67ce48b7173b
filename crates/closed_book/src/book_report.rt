//! The Book of a channel whose threads have ended: its tests, the last sweep, and what is reported.
ghost use Rattle.std.specs.Prelude.{◌≡◌, ◌≢◌, ◌↔◌, ◌<◌, ◌≤◌, List, length, drop, All, Err, IfOk, IsTrue, None, OnOk, Some};
ghost use Rattle.snapshot_store.specs.Tickets.{values_of};
ghost use Rattle.call_journal.specs.declared.event.DriverEvent.TheVariants.{Sweep as SweepValue};
ghost use Rattle.session_lines.specs.declared.session.Session.{Session as SessionValue};
ghost use Rattle.channel_plan.specs.xds_history.Pages.{pages};
ghost use Rattle.channel_plan.specs.xds_history.References.{snapshots_of};
ghost use Rattle.channel_plan.specs.xds_history.Responses.{refused_texts};
ghost use Rattle.channel_plan.specs.xds_history.Setting.{setting_of};
ghost use Rattle.channel_plan.specs.legal_history.Legal.{EndsInSweep, Legal};
ghost use Rattle.book_progress.specs.PlayedPlans.{IsNext};
ghost use Rattle.book_progress.specs.PlayedPlans as played;
ghost use Rattle.book_progress.specs.ProgressKept.{most_entries};
ghost use Rattle.channel_plan.specs.xds_book.BookEntries.{Drives, IsLaneOf};
ghost use Rattle.channel_plan.specs.xds_book.BookViews.{LaneView};
ghost use Rattle.channel_plan.specs.xds_book.declared.book_faults.BookFault.TheVariants.{Memory as BookMemory};
ghost use Rattle.channel_plan.specs.session_player.Stages.{IsOfSession};
ghost use Rattle.channel_plan.specs.lane_checks.EndedPlans.{HaveEndedTo};
ghost use Rattle.closed_book.specs.ReadyBooks.{IsReadyToClose};
ghost use Rattle.closed_book.specs.declared.stops.Stop.TheVariants.{Memory as NoMemory, Strange};

use crate::stops::Stop;
use call_journal::{DriverEvent, Plan};
use channel_plan::{
    Book, BookFault, Job, Lane, Played, have_played_all, is_last_sweep, next_listed,
};
use std::sync::Wait;
use std::sync::ledger::{Blank, Ledger};
use xc_base::{List, Steps};

/// The Book of a channel whose threads have ended, with the lanes of the callers, and the plan that they and the driver played.
#[derive(Drop)]
pub struct ClosedBook<J: Job> {
    /// The Book.
    pub book: Book<J>,
    /// The lanes that the callers' threads brought back.
    pub lanes: List<Lane<J>>,
    /// The plan that the driver and the callers played, which J names.
    pub plan: Plan,
    ghost planned: { J.plan ≡ Some plan.actors },
}

/// Why the last sweep can't be made.
fn stop_in(fault: BookFault) -> Stop
    ensures { (result ≡ NoMemory) ↔ (fault ≡ BookMemory) }
{
    match fault {
        BookFault::Memory => Stop::Memory,
        BookFault::Ended | BookFault::Full => Stop::Strange,
    }
}

/// Whether the driver's lane is of the Book, and the last sweep is what is listed next for it.
fn may_sweep<J: Job>(book: &Book<J>, plan: &Plan, driver: &Lane<J>) -> bool
    requires planned { J.plan ≡ Some plan.now.actors }
    requires driver { driver.now.actor ≡ 0 }
    ensures own { IsTrue result → IsLaneOf driver.now book.now }
    ensures next { IsTrue result → IsNext J.plan driver.now.actor driver.now.count 0 (played.driver SweepValue) book.now.entries }
    ensures may { (lanes : List LaneView) → IsReadyToClose plan.now.actors book.now driver.now lanes → IsTrue result }
{
    let _actors = book.actors();
    if !book.is_of(driver) {
        return false;
    }
    match next_listed(plan, driver) {
        Some(listed) => is_last_sweep(listed),
        None => false,
    }
}

impl<J: Job> ClosedBook<J> {
    /// Makes the last sweep, where it is what is listed next for the driver.
    fn sweep<R: Wait + Sync, L: Ledger>(
        &mut self,
        rt: &R,
        driver: &mut Lane<J>,
        steps: &mut Steps<L>,
    ) -> Result<(), Stop>
        requires driver { driver.old.actor ≡ 0 }
        ensures sweeps { OnOk result (EndsInSweep self.new.book.entries) }
        ensures refused { OnOk result (driver.new.refused ≡ driver.old.refused) }
        ensures drives { OnOk result (Drives 0 SweepValue None self.old.book self.new.book driver.old driver.new) }
        ensures lanes { self.new.lanes ≡ self.old.lanes }
        ensures plan { self.new.plan ≡ self.old.plan }
        ensures ready { IsReadyToClose self.old.plan.actors self.old.book driver.old self.old.lanes → result ≢ Err Strange }
    {
        if !may_sweep(&self.book, &self.plan, driver) {
            return Err(Stop::Strange);
        }
        match self
            .book
            .apply(rt, driver, 0, DriverEvent::Sweep, None, steps)
        {
            Ok(_) => Ok(()),
            Err(fault) => Err(stop_in(fault)),
        }
    }

    /// Makes the last sweep, and tests what was played.
    #[tactic(auto, using(crate::proofs::ReadyProofs::past_of))]
    fn close<R: Wait + Sync, L: Ledger>(
        &mut self,
        rt: &R,
        driver: &mut Lane<J>,
        steps: &mut Steps<L>,
    ) -> Result<(), Stop>
        requires driver { driver.old.actor ≡ 0 }
        ensures plan { self.new.plan ≡ self.old.plan }
        ensures sweeps { OnOk result (EndsInSweep self.new.book.entries) }
        ensures refused { OnOk result (refused_texts self.new.book.entries ≡ driver.old.refused) }
        ensures lanes { OnOk result (All (λ lane. IsLaneOf lane self.new.book) self.new.lanes) }
        ensures ended { OnOk result (HaveEndedTo (length self.new.plan.actors) self.new.plan.actors self.new.book.counts) }
        ensures past { OnOk result (drop 1 self.new.book.entries ≡ self.old.book.entries) }
        ensures plays { IsReadyToClose self.old.plan.actors self.old.book driver.old self.old.lanes → result ≢ Err Strange }
    {
        let _actors = self.book.actors();
        self.sweep(rt, driver, steps)?;
        let callers = self.lanes.as_slice();
        if !have_played_all(&self.book, &self.plan, driver, callers) {
            return Err(Stop::Strange);
        }
        Ok(())
    }

    /// The journal, and the snapshots that were published.
    fn finish(self) -> Played
        requires lanes { All (λ lane. IsLaneOf lane self.book) self.lanes }
        requires ended { HaveEndedTo (length self.plan.actors) self.plan.actors self.book.counts }
        requires sweeps { EndsInSweep self.book.entries }
        ensures entries { result.journal.entries ≡ self.book.entries }
        ensures legal { (session : SessionValue) → IsOfSession J.plan J.boot J.target session self.plan.actors → Legal session result.journal.entries }
        ensures snapshots { (session : SessionValue) → IsOfSession J.plan J.boot J.target session self.plan.actors → values_of result.history.tickets ≡ snapshots_of (pages (setting_of session.boot session.target) result.journal.entries) }
        ensures few { length result.history.tickets ≤ most_entries }
    {
        let (journal, history) = self.book.finish(self.lanes);
        Played { journal, history }
    }

    /// Makes the last sweep, tests what was played, and gives what is reported: the history of the Book, where each lane is of
    /// it, the driver's refused texts are those of the journal, and each actor has played all that is listed for it. `Strange`
    /// comes where one of these isn't so, and never of a Book that is ready to close; `Memory` comes for want of memory.
    pub fn report<R: Wait + Sync, L: Ledger>(
        self,
        rt: &R,
        blank: Blank,
        driver: Lane<J>,
    ) -> Result<Played, Stop>
        requires name { blank.name ≡ L.name }
        requires parts { blank.parts ≡ L.parts }
        requires some { 0 < blank.parts }
        requires driver { driver.actor ≡ 0 }
        ensures legal { IfOk result (λ played. (session : SessionValue) → IsOfSession J.plan J.boot J.target session self.plan.actors → Legal session played.journal.entries) }
        ensures snapshots { IfOk result (λ played. (session : SessionValue) → IsOfSession J.plan J.boot J.target session self.plan.actors → values_of played.history.tickets ≡ snapshots_of (pages (setting_of session.boot session.target) played.journal.entries)) }
        ensures few { IfOk result (λ played. length played.history.tickets ≤ most_entries) }
        ensures refused { IfOk result (λ played. refused_texts played.journal.entries ≡ driver.refused) }
        ensures past { IfOk result (λ played. drop 1 played.journal.entries ≡ self.book.entries) }
        ensures plays { IsReadyToClose self.plan.actors self.book driver self.lanes → result ≢ Err Strange }
    {
        let mut closed = self;
        let mut driver = driver;
        let mut steps = Steps::<L>::new(blank);
        closed.close(rt, &mut driver, &mut steps)?;
        Ok(closed.finish())
    }
}
