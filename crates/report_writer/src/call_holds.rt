//! What calls hold.
ghost use Rattle.std.specs.Prelude.{◌≡◌, ◌==◌, ℕ, None, OnOk, option_copied, unwrap_or, if◌then◌else◌};
ghost use Rattle.report_parts.specs.Callers.{cluster_in};
ghost use Rattle.call_journal.specs.declared.entry.What.{What as Happening};
ghost use Rattle.call_journal.specs.declared.event.CallerEvent.{CallerEvent as Asking};
ghost use Rattle.report_writer.specs.JournalReport.{held_in, holds_after, picked_in};

use call_journal::{CallerEvent, CallerReply, What};
use cluster_tree::Snapshot;
use report_parts::cluster_in;
use std::alloc::Global;
use std::collections::BTreeMap;
use xc_base::{Call, CallId, Memory, Shared, Text};

/// The cluster that each call holds after the entries of a journal that were followed, where it holds one.
#[derive(Drop)]
pub struct CallHolds {
    held: BTreeMap<u32, Text>,
}

impl CallHolds {
    /// No call holds anything. It takes no memory.
    pub fn new(alloc: Global) -> CallHolds
        ensures { (id : ℕ) → held_in result id ≡ None }
    {
        CallHolds {
            held: BTreeMap::new(alloc),
        }
    }

    /// The cluster that a call holds.
    fn of(&self, call: CallId) -> Option<&Text>
        ensures { option_copied result ≡ held_in self.now call.0 }
    {
        self.held.get(&call.0)
    }

    /// The cluster that the call of a pick holds; None at any other entry.
    pub fn picked_in(&self, what: &What) -> Option<&Text>
        ensures { option_copied result ≡ picked_in (held_in self.now) what.now }
    {
        match what {
            What::Driver { .. } => None,
            What::Caller { event, .. } => match event {
                CallerEvent::Pick { call, .. } => self.of(*call),
                CallerEvent::Pin(_) | CallerEvent::Hold(_) | CallerEvent::Commit(_) => None,
            },
        }
    }

    /// A call holds this cluster now, or none.
    fn set(&mut self, call: CallId, cluster: Option<&Text>) -> Result<(), Memory>
        ensures { OnOk result ((id : ℕ) → held_in self.new id ≡ (if call.0 == id then option_copied cluster.entry else held_in self.old id)) }
    {
        match cluster {
            Some(cluster) => {
                self.held.insert(call.0, cluster.clone()?)?;
                Ok(())
            }
            None => {
                self.held.remove(&call.0);
                Ok(())
            }
        }
    }

    /// Follows an entry, which names this snapshot: a hold gives its call the cluster of its route, or none, and a commit
    /// takes it away.
    pub fn follow(&mut self, snapshot: Option<&Snapshot>, what: &What) -> Result<(), Memory>
        ensures { OnOk result ((id : ℕ) → held_in self.new id ≡ unwrap_or (holds_after (option_copied snapshot.entry) id what.now) (held_in self.old id)) }
    {
        match what {
            What::Driver { .. } => Ok(()),
            What::Caller { event, reply } => match event {
                CallerEvent::Pin(_) | CallerEvent::Pick { .. } => Ok(()),
                CallerEvent::Hold(call) => self.hold(snapshot, call, reply),
                CallerEvent::Commit(call) => self.set(*call, None),
            },
        }
    }

    /// Follows the hold of a call.
    fn hold(
        &mut self,
        snapshot: Option<&Snapshot>,
        call: &Shared<Call>,
        reply: &CallerReply,
    ) -> Result<(), Memory>
        ensures { OnOk result ((id : ℕ) → held_in self.new id ≡ unwrap_or (holds_after (option_copied snapshot.entry) id (Happening.Caller (Asking.Hold call.now) reply.now)) (held_in self.old id)) }
    {
        match reply {
            CallerReply::Routed { answer, .. } => {
                self.set(call.get().id, cluster_in(snapshot, answer))
            }
            CallerReply::Pinned(_)
            | CallerReply::NoSnapshot
            | CallerReply::Endpoint { .. }
            | CallerReply::Queue { .. }
            | CallerReply::Fail { .. }
            | CallerReply::Drop { .. }
            | CallerReply::NotHeld
            | CallerReply::Released => Ok(()),
        }
    }
}
