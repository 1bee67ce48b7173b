//! The turns of a report, played one after another.
ghost use Rattle.std.specs.Prelude.{◌≡◌, ◌+◌, ℕ, List, All, length, map, IfOk};
ghost use Rattle.call_journal.specs.declared.entry.Entry.{Entry as EntryValue};
ghost use Rattle.session_lines.specs.declared.session.Session.{Session};
ghost use Rattle.replay_law.specs.listed_events.ListedEvents.{TellsOn};
ghost use Rattle.turn_player.specs.TurnPlans.{IsTurnPlan};
ghost use Rattle.alike_law.specs.AlikeTexts.{ListsAlike, Parting};
ghost use Rattle.report_replay.specs.ReplayedTurns.{HasRead, HasReplayed, IsEndOfAny, IsNextOfAny, IsNextOfReplay, IsLegalReplay, IsPlayedByAny, IsReplayed, IsTurnIn, IsUnderWay};

use call_journal::Plan;
use header_match::Patterns;
use replay_steps::{Mistake, Next, Why, next_after};
use report_turns::{EntryTurn, EntryTurns, Found};
use std::marker::Model;
use std::sync::Wait;
use std::sync::ledger::Ledger;
use turn_player::{Book, Job, Lane, Table};
use xc_base::Memory;

/// The turns of a report, which are played on the Book of its session. Contracts see the plan of the session, the seats of its
/// actors, and the lines of the report that are left.
#[derive(Drop)]
pub struct Replay<'p, 'r, J: Job, L: Ledger> {
    plan: &'p Plan,
    table: Table<J, L>,
    turns: EntryTurns<'r>,
}

impl<'p, 'r, J: Job, L: Ledger> Model for Replay<'p, 'r, J, L> {
    ghost use Rattle.report_replay.specs.ReplayedTurns.{ReplayView};

    ghost Value = { ReplayView };

    ghost view = { λ r. record { plan = r.plan.now.actors; seats = r.table; lines = r.turns } };
}

impl<'p, 'r, J: Job, L: Ledger> Replay<'p, 'r, J, L> {
    /// The turns of a report, where none is played yet. The table has the lanes of all actors, the driver's first.
    pub fn new(plan: &'p Plan, table: Table<J, L>, report: &'r [u8]) -> Replay<'p, 'r, J, L>
        ensures { HasRead plan.now.actors table report.now result }
    {
        Replay {
            plan,
            table,
            turns: EntryTurns::new(report),
        }
    }

    /// The lanes of actors that have no pin up, in the order of the actors.
    pub fn into_lanes(self) -> Result<Vec<Lane<J>>, Memory>
        ensures { IfOk result (λ lanes. All (λ seat. seat.lane.count.pins ≡ 0) self.entry.seats → lanes.items ≡ map (λ seat. seat.lane) self.entry.seats) }
    {
        self.table.into_lanes()
    }

    /// Plays a turn, or says why it can't be played.
    fn play_turn<R: Wait + Sync, P: Patterns>(
        &mut self,
        rt: &R,
        book: &mut Book<J>,
        turn: EntryTurn<'_>,
        patterns: &mut P,
    ) -> Result<Next, Memory>
        requires plan { IsTurnPlan J.plan (length J.boot.authorities) self.old.plan }
        ensures plan { self.new.plan ≡ self.old.plan }
        ensures lines { self.new.lines ≡ self.old.lines }
        ensures tells { IfOk result (λ next. TellsOn (P.refused patterns.old) (P.refused patterns.new)) }
        ensures any { IfOk result (λ next. IsUnderWay book.old self.old.seats → IsNextOfAny self.old.plan book.new self.new.seats next) }
        ensures right { IfOk result (λ next. (session : Session) (history : List EntryValue) (parting : Parting) (made : ℕ) → IsLegalReplay J.plan J.boot J.target session history self.old.plan → IsTurnIn session history parting made turn.entry book.old self.old → IsNextOfReplay session history parting (made + 1) (P.refused patterns.old) (P.refused patterns.new) book.new self.new next) }
    {
        let _actors = book.actors();
        let number = self.turns.number() as usize;
        let played = self.table.play(rt, book, self.plan, turn, patterns);
        let _after = book.actors();
        next_after(number, turn.line, played)
    }

    /// What is wrong at the end of the turns, where a line of the session isn't played to its end.
    fn end(&self) -> Next
        requires plan { IsTurnPlan J.plan (length J.boot.authorities) self.now.plan }
        ensures { IsEndOfAny self.now.plan self.now.seats result }
    {
        match self.table.left_line(self.plan) {
            None => Next::End,
            Some(line) => Next::Wrong(Mistake {
                line: self.turns.number() as usize,
                why: Why::Left { line },
            }),
        }
    }

    /// Plays the next turn, if there is one.
    fn play_next<R: Wait + Sync, P: Patterns>(
        &mut self,
        rt: &R,
        book: &mut Book<J>,
        patterns: &mut P,
    ) -> Result<Next, Memory>
        requires plan { IsTurnPlan J.plan (length J.boot.authorities) self.old.plan }
        ensures plan { self.new.plan ≡ self.old.plan }
        ensures tells { IfOk result (λ next. TellsOn (P.refused patterns.old) (P.refused patterns.new)) }
        ensures any { IfOk result (λ next. IsUnderWay book.old self.old.seats → IsNextOfAny self.old.plan book.new self.new.seats next) }
        ensures right { IfOk result (λ next. (session : Session) (history : List EntryValue) (parting : Parting) (made : ℕ) → IsLegalReplay J.plan J.boot J.target session history self.old.plan → ListsAlike parting → HasReplayed session history parting made book.old self.old → IsNextOfReplay session history parting (made + 1) (P.refused patterns.old) (P.refused patterns.new) book.new self.new next) }
    {
        let _actors = book.actors();
        match self.turns.find() {
            Found::Entry(turn) => self.play_turn(rt, book, turn, patterns),
            Found::Strange => Ok(Next::Wrong(Mistake {
                line: self.turns.number() as usize,
                why: Why::Strange,
            })),
            Found::End => Ok(self.end()),
        }
    }

    /// Plays the turns of the report up to the last sweep or its end, or to the first that can't be played: then its mistake is
    /// answered. It fails for want of memory alone.
    pub fn play_all<R: Wait + Sync, P: Patterns>(
        &mut self,
        rt: &R,
        book: &mut Book<J>,
        patterns: &mut P,
    ) -> Result<Option<Mistake>, Memory>
        requires plan { IsTurnPlan J.plan (length J.boot.authorities) self.old.plan }
        ensures any { IfOk result (λ mistake. IsUnderWay book.old self.old.seats → IsPlayedByAny self.old.plan book.new self.new.seats mistake) }
        ensures replayed { IfOk result (λ mistake. (session : Session) (history : List EntryValue) (parting : Parting) → IsLegalReplay J.plan J.boot J.target session history self.old.plan → ListsAlike parting → HasReplayed session history parting 0 book.old self.old → P.refused patterns.new ≡ P.refused patterns.old → IsReplayed session history parting mistake book.new self.new.seats) }
    {
        for turn in 0..u32::MAX {
            let _ = turn;
            match self.play_next(rt, book, patterns)? {
                Next::Played => {}
                Next::End => return Ok(None),
                Next::Wrong(mistake) => return Ok(Some(mistake)),
            }
        }
        let _actors = book.actors();
        Ok(Some(Mistake::stuck(self.turns.number() as usize)))
    }
}
