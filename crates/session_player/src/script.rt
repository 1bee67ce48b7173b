//! The lines of a session, played one after another.
ghost use Rattle.std.specs.Prelude.{◌≡◌, ◌<◌, ◌+◌, ◌++◌, ℕ, length, IfOk, OnOk, option_copied};
ghost use Rattle.std.specs.List.{slice_get};
ghost use Rattle.xds_bootstrap.specs.declared.bootstrap.Bootstrap.{Bootstrap as BootstrapValue};
ghost use Rattle.session_lines.specs.declared.session.Act.TheVariants as does;
ghost use Rattle.session_lines.specs.declared.session.Line.{Line as LineValue};
ghost use Rattle.legal_plan.specs.xds_history.Responses.{refused_texts};
ghost use Rattle.book_progress.specs.ActorCounts.{count_of};
ghost use Rattle.xds_book.specs.BookEntries.{IsPreparedFor};
ghost use Rattle.session_player.specs.LineProgress.{IsCalling, IsPlayable};
ghost use Rattle.session_player.specs.Stages.{HasDriven, driver_in, IsOfSession, Refuses, StandsAt, StandsAtEnd, StandsIn, texts_in};

use crate::shared_events::{ends, shared_event};
use crate::stage::Stage;
use call_journal::{DriverEvent, ListedEvent, Plan};
use header_match::Patterns;
use resource_check::{Prepared, prepare};
use session_lines::{Act, Session, Work};
use std::alloc::Global;
use std::sync::Wait;
use std::sync::ledger::Ledger;
use xc_base::{Call, Memory, Shared};
use xds_book::Job;

/// A session, and its plan.
#[derive(Drop)]
pub(crate) struct Script<'a> {
    pub(crate) alloc: Global,
    pub(crate) session: &'a Session,
    pub(crate) plan: &'a Plan,
}

/// A response, read and checked; None for any other event.
fn prepared_for<P: Patterns>(
    alloc: Global,
    event: &DriverEvent,
    patterns: &mut P,
) -> Result<Option<Prepared>, Memory>
    requires { (boot : BootstrapValue) × IsPlayable boot event.now }
    ensures prepared { IfOk result (IsPreparedFor event.now) }
    ensures told { IfOk result (λ prepared. P.refused patterns.new ≡ P.refused patterns.old ++ texts_in prepared) }
{
    match event {
        DriverEvent::Response { payload, .. } => {
            let prepared = prepare(alloc, payload.share()?, patterns)?;
            Ok(Some(prepared))
        }
        DriverEvent::Opened(_)
        | DriverEvent::Bytes { .. }
        | DriverEvent::Lost(_)
        | DriverEvent::Moment(_)
        | DriverEvent::Endpoint { .. }
        | DriverEvent::Sweep => Ok(None),
    }
}

/// The listed event of the driver, if it is one.
fn driver_event(event: &ListedEvent) -> Option<&DriverEvent>
    ensures { option_copied result ≡ driver_in event.now }
{
    match event {
        ListedEvent::Driver(event) => Some(event),
        ListedEvent::Start(_) | ListedEvent::Pick { .. } | ListedEvent::Commit(_) => None,
    }
}

impl Script<'_> {
    /// Plays the next event of the driver, in a line of it, and tells whether it ends the line.
    fn drive<J: Job, L: Ledger, R: Wait + Sync, P: Patterns>(
        &self,
        rt: &R,
        stage: &mut Stage<J, L>,
        patterns: &mut P,
    ) -> Result<bool, Memory>
        requires of { IsOfSession J.plan J.boot J.target self.now.session.now self.now.plan.now.actors }
        requires stands { (place : ℕ) × StandsIn self.now.session.now place stage.old }
        ensures stands { IfOk result (λ ended. (place : ℕ) → StandsIn self.now.session.now place stage.old → HasDriven self.now.session.now place stage.new ended) }
        ensures counts { OnOk result ((count_of 0 stage.new.entries).ended ≡ (count_of 0 stage.old.entries).ended + 1) }
        ensures refused { OnOk result (Refuses stage.old.entries stage.new.entries (P.refused patterns.old) (P.refused patterns.new)) }
    {
        let listed = self.plan.actors.at(0).at(stage.driven());
        let Some(event) = driver_event(&listed.event) else {
            return Ok(true);
        };
        let ended = ends(event);
        let prepared = prepared_for(self.alloc, event, patterns)?;
        stage.drive(rt, listed.line, shared_event(event)?, prepared)?;
        Ok(ended)
    }

    /// Plays a line of the driver.
    fn play_driver<J: Job, L: Ledger, R: Wait + Sync, P: Patterns>(
        &self,
        rt: &R,
        stage: &mut Stage<J, L>,
        patterns: &mut P,
    ) -> Result<(), Memory>
        requires of { IsOfSession J.plan J.boot J.target self.now.session.now self.now.plan.now.actors }
        requires stands { (place : ℕ) × StandsIn self.now.session.now place stage.old }
        ensures stands { OnOk result ((place : ℕ) → StandsIn self.now.session.now place stage.old → StandsAt self.now.session.now (place + 1) stage.new) }
        ensures refused { OnOk result (Refuses stage.old.entries stage.new.entries (P.refused patterns.old) (P.refused patterns.new)) }
    {
        for turn in 0..self.plan.actors.at(0).len() {
            let _ = turn;
            if self.drive(rt, stage, patterns)? {
                return Ok(());
            }
        }
        Ok(())
    }

    /// Plays the line at a place, in which a call starts: a pin, and where there is a snapshot a hold.
    fn start<J: Job, L: Ledger>(
        &self,
        stage: &mut Stage<J, L>,
        place: usize,
        caller: u16,
        call: &Shared<Call>,
    ) -> Result<(), Memory>
        requires of { IsOfSession J.plan J.boot J.target self.now.session.now self.now.plan.now.actors }
        requires calls { (line : LineValue) × IsCalling self.now.session.now place line caller (does.Start call.now) }
        requires stands { StandsAt self.now.session.now place stage.old }
        ensures stands { OnOk result (StandsAt self.now.session.now (place + 1) stage.new) }
        ensures refused { OnOk result (refused_texts stage.new.entries ≡ refused_texts stage.old.entries) }
    {
        let line = self.session.lines.at(place).number;
        match stage.pin(caller, line, call.share()?)? {
            Some(token) => stage.hold(caller, line, token),
            None => Ok(()),
        }
    }

    /// Plays the line at a place, which is one of a caller.
    fn play_act<J: Job, L: Ledger>(
        &self,
        stage: &mut Stage<J, L>,
        place: usize,
        caller: u16,
        act: &Act,
    ) -> Result<(), Memory>
        requires of { IsOfSession J.plan J.boot J.target self.now.session.now self.now.plan.now.actors }
        requires calls { (line : LineValue) × IsCalling self.now.session.now place line caller act.now }
        requires stands { StandsAt self.now.session.now place stage.old }
        ensures stands { OnOk result (StandsAt self.now.session.now (place + 1) stage.new) }
        ensures refused { OnOk result (refused_texts stage.new.entries ≡ refused_texts stage.old.entries) }
    {
        let line = self.session.lines.at(place).number;
        match act {
            Act::Start(call) => self.start(stage, place, caller, call),
            Act::Pick { call, word } => stage.pick(caller, line, *call, *word),
            Act::Commit(call) => stage.commit(caller, line, *call),
        }
    }

    /// Plays the line at a place.
    fn play_line<J: Job, L: Ledger, R: Wait + Sync, P: Patterns>(
        &self,
        rt: &R,
        stage: &mut Stage<J, L>,
        place: usize,
        patterns: &mut P,
    ) -> Result<(), Memory>
        requires of { IsOfSession J.plan J.boot J.target self.now.session.now self.now.plan.now.actors }
        requires within { place < length self.now.session.now.lines }
        requires stands { StandsAt self.now.session.now place stage.old }
        ensures stands { OnOk result (StandsAt self.now.session.now (place + 1) stage.new) }
        ensures refused { OnOk result (Refuses stage.old.entries stage.new.entries (P.refused patterns.old) (P.refused patterns.new)) }
    {
        match &self.session.lines.at(place).work {
            Work::Driver(_) => self.play_driver(rt, stage, patterns),
            Work::Caller { caller, act } => self.play_act(stage, place, *caller, act),
        }
    }

    /// Plays all lines, in the order of the file.
    fn play_lines<J: Job, L: Ledger, R: Wait + Sync, P: Patterns>(
        &self,
        rt: &R,
        stage: &mut Stage<J, L>,
        patterns: &mut P,
    ) -> Result<(), Memory>
        requires of { IsOfSession J.plan J.boot J.target self.now.session.now self.now.plan.now.actors }
        requires stands { StandsAt self.now.session.now 0 stage.old }
        ensures stands { OnOk result (StandsAt self.now.session.now (length self.now.session.now.lines) stage.new) }
        ensures refused { OnOk result (Refuses stage.old.entries stage.new.entries (P.refused patterns.old) (P.refused patterns.new)) }
    {
        for place in 0..self.session.lines.len() {
            self.play_line(rt, stage, place, patterns)?;
        }
        Ok(())
    }

    /// Plays the last sweep, behind all lines.
    fn sweep<J: Job, L: Ledger, R: Wait + Sync>(
        &self,
        rt: &R,
        stage: &mut Stage<J, L>,
    ) -> Result<(), Memory>
        requires of { IsOfSession J.plan J.boot J.target self.now.session.now self.now.plan.now.actors }
        requires stands { StandsAt self.now.session.now (length self.now.session.now.lines) stage.old }
        ensures stands { OnOk result (StandsAtEnd self.now.session.now stage.new) }
        ensures refused { OnOk result (refused_texts stage.new.entries ≡ refused_texts stage.old.entries) }
    {
        stage.drive(rt, 0, DriverEvent::Sweep, None)
    }

    /// Plays all lines in the order of the file, and then the last sweep.
    pub(crate) fn play<J: Job, L: Ledger, R: Wait + Sync, P: Patterns>(
        &self,
        rt: &R,
        stage: &mut Stage<J, L>,
        patterns: &mut P,
    ) -> Result<(), Memory>
        requires of { IsOfSession J.plan J.boot J.target self.now.session.now self.now.plan.now.actors }
        requires stands { StandsAt self.now.session.now 0 stage.old }
        ensures stands { OnOk result (StandsAtEnd self.now.session.now stage.new) }
        ensures refused { OnOk result (Refuses stage.old.entries stage.new.entries (P.refused patterns.old) (P.refused patterns.new)) }
    {
        self.play_lines(rt, stage, patterns)?;
        self.sweep(rt, stage)
    }
}
