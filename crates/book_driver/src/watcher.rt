//! The streams and the keys that are watched.
ghost use Rattle.std.specs.Prelude.{◌≡◌, ◌≤◌, ◌↔◌, [], ◌∷◌, ℕ, List, true, false, length, IfOk, IfSome, None, Ok, OnOk};
ghost use Rattle.xc_base.specs.declared.names.Kind.TheVariants.{Listener as ListenerKind};
ghost use Rattle.call_journal.specs.declared.event.DriverEvent.{DriverEvent as EventValue};
ghost use Rattle.call_journal.specs.declared.reply.DriverReply.{DriverReply};
ghost use Rattle.call_journal.specs.declared.entry.Entry.{Entry as EntryValue};
ghost use Rattle.book_trees.specs.xds_history.Setting.{Setting, setting_of};
ghost use Rattle.book_trees.specs.xds_history.Responses.{Came};
ghost use Rattle.book_trees.specs.xds_history.References.{references};
ghost use Rattle.book_trees.specs.xds_history.Requests.{requests};
ghost use Rattle.book_trees.specs.xds_history.Pages.{came, driven, pages, present_after};
ghost use Rattle.dep_manager.specs.KeptAssemblies.{HaveChanged};
ghost use Rattle.dep_manager.specs.ServedCalls.{IsServing};
ghost use Rattle.driver_step.specs.book_fates.FateSteps.{WatchesOnly};
ghost use Rattle.driver_step.specs.book_fates.Timing.{NoneWanted};
ghost use Rattle.driver_step.specs.DriverSteps.{Assembly, IsAssembly, watched_by};
ghost use Rattle.book_driver.specs.Assembled.{IsAssembledBy};
ghost use Rattle.book_driver.specs.WatcherKept.{IsReachedBy, IsWatcherAt};

use crate::call_refs::CallRefs;
use call_journal::Sent;
use config_assembly::SharedKeys;
use dep_manager::{Deps, Outcome};
use driver_step::{Fates, Reached, Streams};
use std::alloc::Global;
use std::sync::ledger::Ledger;
use watch_timers::Timers;
use xc_base::{Key, List, Memory, Steps, Time};
use xds_bootstrap::Bootstrap;
use xds_cache::Cache;
use xds_name::Target;

/// The streams of all authorities, what is known of the keys that are watched, and what is reached by it.
#[derive(Drop)]
pub struct Watcher {
    /// Where lists are made.
    pub alloc: Global,
    /// The authorities of names, and the node.
    pub boot: Bootstrap,
    /// The target, and what is reached.
    pub deps: Deps,
    /// A stream for each authority.
    pub streams: Streams,
    /// What is known of each watched key, and the timers of those that are waited for.
    pub fates: Fates,
}

impl Watcher {
    /// The streams of this bootstrap, none of which is open, and nothing watched. It fails for want of memory alone.
    pub fn new(alloc: Global, boot: Bootstrap, target: Target) -> Result<Watcher, Memory>
        requires listener { target.key.kind ≡ ListenerKind }
        requires few { length boot.authorities ≤ 65536 }
        ensures at { IfOk result (λ w. IsWatcherAt (setting_of boot target) [] w) }
        ensures shown { IfOk result (λ w. w.deps.shown ≡ None) }
    {
        let streams = Streams::new(alloc, &boot.node, boot.authorities.len())?;
        let deps = Deps::new(alloc, target)?;
        Ok(Watcher {
            alloc,
            boot,
            deps,
            streams,
            fates: Fates {
                alloc,
                cache: Cache::new(alloc),
                timers: Timers::new(alloc),
                reached: SharedKeys::new(),
                untimed: None,
            },
        })
    }

    /// What is reached, awaited and configured, where what the last update made is known to serve calls and none but Endpoint keys
    /// changed; else nothing is answered and nothing changes.
    fn assemble_in_place<L: Ledger>(
        &mut self,
        changed: &List<Key>,
        calls: CallRefs<'_>,
        steps: &mut Steps<L>,
    ) -> Result<Option<Outcome>, Memory>
        requires same { self.old.deps.reached ≡ self.old.fates.reached }
        requires changed { HaveChanged self.old.boot.authorities self.old.deps self.old.fates.cache changed.now }
        ensures none { result ≡ Ok None → self.new ≡ self.old }
        ensures found { IfOk result (λ found. IfSome found (IsAssembledBy calls.entry self.old self.new)) }
    {
        if !calls.are_known_served(&self.deps) {
            return Ok(None);
        }
        let found = self
            .deps
            .update_in_place(self.alloc, changed, &self.fates.cache, steps)?;
        Ok(found)
    }

    /// What is reached, awaited and configured by what is known now (gRFC A74), where of no watched key but these something else
    /// is known than before. The cache watches what is reached from then on. What calls refer to is listed where all has to be
    /// made from nothing, where a cluster is configured for calls alone, and where a key is awaited while they refer to others
    /// than at the driver's last entry. It fails for want of memory alone, and then nothing is said of what is kept.
    pub fn assemble<L: Ledger>(
        &mut self,
        changed: &List<Key>,
        calls: CallRefs<'_>,
        steps: &mut Steps<L>,
    ) -> Result<Outcome, Memory>
        requires only { WatchesOnly self.old.fates.cache self.old.fates.reached }
        requires same { self.old.deps.reached ≡ self.old.fates.reached }
        requires changed { HaveChanged self.old.boot.authorities self.old.deps self.old.fates.cache changed.now }
        ensures assembled { IfOk result (IsAssembledBy calls.entry self.old self.new) }
    {
        if let Some(outcome) = self.assemble_in_place(changed, calls, steps)? {
            return Ok(outcome);
        }
        let names = calls.refs.retained()?;
        let outcome = self.deps.update(
            self.alloc,
            &self.boot,
            changed,
            &names,
            &mut self.fates.cache,
            steps,
        )?;
        Ok(outcome)
    }

    /// Asks for what is reached: the requests that are due, once something came. Timers end and start by them. Where the same
    /// keys stay reached, none is looked at but those of which it isn't known that they have a timer where they are awaited. It
    /// fails for want of memory alone, and then nothing is said of what is kept.
    pub fn ask<L: Ledger>(
        &mut self,
        reached: Reached,
        now: Time,
        steps: &mut Steps<L>,
    ) -> Result<List<Sent>, Memory>
        requires awaits { reached.awaits ≡ false → NoneWanted self.old.fates.cache reached.keys }
        requires stays { reached.stays ≡ true → reached.keys ≡ self.old.fates.reached }
        requires told { self.old.streams.told ≡ self.old.fates.reached }
        ensures shown { OnOk result (self.new.deps.shown ≡ self.old.deps.shown) }
        ensures sent { IfOk result (λ sent. (s : Setting) (past : List EntryValue) (c : Came) (a : Assembly) → IsReachedBy s past c now reached.keys self.old → a.reached ≡ reached.keys → sent ≡ requests s c past (watched_by s c past (pages s past) a)) }
        ensures kept { IfOk result (λ sent. (s : Setting) (past : List EntryValue) (line : ℕ) (event : EventValue) (reply : DriverReply) (a : Assembly) → IsReachedBy s past (came event reply) now reached.keys self.old → IsServing self.old.deps (references (pages s past)) → IsAssembly s (came event reply) past (pages s past) a → a.reached ≡ reached.keys → now ≡ (present_after past event).now → reply.sent ≡ sent → IsWatcherAt s (driven 0 line event reply ∷ past) self.new) }
    {
        let sent = self.streams.names(reached.keys.as_slice(), reached.stays)?;
        self.fates.leave(&reached)?;
        self.fates.settle(reached, sent.as_slice(), now, steps)?;
        Ok(sent)
    }
}
