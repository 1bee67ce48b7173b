//! The ends of timers, in the order in which they come.
ghost use Rattle.std.specs.Prelude.{◌<◌, ℕ, IfNone, IfSome, OnErr, OnOk};
ghost use Rattle.std.specs.BTreeSet.{IsUnchanged};
ghost use Rattle.tree_timers.specs.EndsKept.{HasEnd, HasPlace, IsDue};
ghost use Rattle.tree_timers.specs.declared.timer_ends.TimerEnd.{TimerEnd};

use std::alloc::Global;
use std::collections::BTreeSet;
use std::marker::Model;
use xc_base::{Memory, Time};

/// The end of a timer of the cluster at a place in the configuration. The earlier end stands first, and of equal ends the
/// lower place.
#[derive(Clone, Copy, PartialEq, Eq, PartialOrd, Ord)]
pub struct TimerEnd {
    /// When it ends, in milliseconds.
    pub at: Time,
    /// The cluster's place.
    pub place: u32,
}

/// The ends of timers, which contracts see as a set. An end may stay although its timer has another one meanwhile.
#[derive(Drop)]
pub struct TimerEnds {
    ends: BTreeSet<TimerEnd>,
}

impl Model for TimerEnds {
    ghost use Rattle.tree_timers.specs.EndsKept.{Ends};

    ghost Value = { Ends };

    ghost view = { λ timers. timers.ends };
}

/// The first end, where it has come. It takes no memory.
fn first_due(ends: &BTreeSet<TimerEnd>, now: Time) -> Option<TimerEnd>
    ensures none { IfNone result ((end : TimerEnd) → HasEnd ends.now end → IsDue now end → ⊥) }
    ensures member { IfSome result (HasEnd ends.now) }
    ensures due { IfSome result (IsDue now) }
{
    let first = ends.first()?;
    if first.at.0 <= now.0 {
        Some(*first)
    } else {
        None
    }
}

impl TimerEnds {
    /// No ends. It takes no memory.
    pub fn new(alloc: Global) -> TimerEnds
        ensures { (end : TimerEnd) → HasEnd result end → ⊥ }
    {
        TimerEnds {
            ends: BTreeSet::new(alloc),
        }
    }

    /// Adds the end of a timer of the cluster at a place. It answers want of memory where there is none.
    pub fn add(&mut self, place: u32, at: Time) -> Result<(), Memory>
        ensures added { OnOk result (HasEnd self.new (record { at = at; place = place })) }
        ensures kept { OnOk result ((end : TimerEnd) → HasEnd self.old end → HasEnd self.new end) }
        ensures err { OnErr result (IsUnchanged self.old self.new) }
    {
        self.ends.insert(TimerEnd { at, place })?;
        Ok(())
    }

    /// Takes out the ends that have come at a time, and adds their places to a set. Where there is no memory, those are
    /// left whose places weren't added.
    pub fn take_due(&mut self, now: Time, places: &mut BTreeSet<u32>) -> Result<(), Memory>
        ensures added { OnOk result ((end : TimerEnd) → HasEnd self.old end → IsDue now end → HasPlace places.new end.place) }
        ensures taken { OnOk result ((end : TimerEnd) → HasEnd self.new end → IsDue now end → ⊥) }
        ensures more { (place : ℕ) → HasPlace places.old place → HasPlace places.new place }
        ensures kept { (end : TimerEnd) → HasEnd self.old end → now.0 < end.at.0 → HasEnd self.new end }
    {
        while let Some(end) = first_due(&self.ends, now) {
            places.insert(end.place)?;
            self.ends.remove(&end);
        }
        Ok(())
    }
}
