//! The lanes of actors.
ghost use Rattle.std.specs.Prelude.{◌≡◌, IfOk, map};
ghost use Rattle.std.specs.List.{range_with_len};
ghost use Rattle.xds_book.specs.BookEntries.{first_lane};

use crate::jobs::Job;
use call_journal::Count;
use std::alloc::Global;
use std::marker::{Model, PhantomData};
use xc_base::{List, Memory, Text};

/// What an actor knows of its own part: who it is, how far it has come, and the pattern texts that were refused in its
/// entries, in order. Anyone may read it, and only the calls of a Book change it.
#[derive(Drop)]
pub struct Lane<J: Job> {
    pub(crate) actor: u16,
    pub(crate) count: Count,
    pub(crate) refused: List<Text>,
    of: PhantomData<J>,
}

impl<J: Job> Model for Lane<J> {
    ghost use Rattle.xds_book.specs.BookViews.{LaneView};

    ghost Value = { LaneView };

    ghost view = { λ l. record { actor = l.actor; count = l.count; refused = l.refused } };
}

impl<J: Job> Lane<J> {
    /// The lane of an actor that has done nothing.
    fn first(alloc: Global, actor: u16) -> Lane<J>
        ensures { result ≡ first_lane actor }
    {
        Lane {
            actor,
            count: Count { ended: 0, pins: 0 },
            refused: List::new(alloc),
            of: PhantomData,
        }
    }

    /// The actor: the driver is 0, and callers are 1 and more.
    pub fn actor(&self) -> u16
        ensures { result ≡ self.now.actor }
    {
        self.actor
    }

    /// How far the actor has come.
    pub fn count(&self) -> Count
        ensures { result ≡ self.now.count }
    {
        self.count
    }

    /// The pattern texts that were refused in the actor's entries, in order.
    pub fn refused(&self) -> &List<Text>
        ensures { result.now ≡ self.now.refused }
    {
        &self.refused
    }
}

/// A lane for each of so many actors, the driver's first.
#[tactic(auto, using(crate::proofs::LaneLemmas::lanes_more))]
pub(crate) fn new_lanes<J: Job>(alloc: Global, actors: u16) -> Result<List<Lane<J>>, Memory>
    ensures { IfOk result (λ lanes. lanes ≡ map first_lane (range_with_len 0 actors)) }
{
    let mut lanes = List::new(alloc);
    for actor in 0..actors {
        lanes.push(Lane::first(alloc, actor))?;
    }
    Ok(lanes)
}
