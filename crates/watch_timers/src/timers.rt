//! The timers of keys.
ghost use Rattle.std.specs.Prelude.{◌≡◌, ◌↔◌, ◌≤◌, ◌+◌, [], ◌∷◌, ◌++◌, length, map, true, false, is_some, None, IsTrue, IfSome, IfNone, OnOk, OnErr, IfOk};
ghost use Rattle.std.specs.BTreeSet.{IsOrdered, Updates};
ghost use Rattle.std.specs.Map.{keys_of};
ghost use Rattle.std.specs.Vec.{vec_capacity};
ghost use Rattle.watch_timers.specs.StartOrder.{IsOrderOf, first_due, after_due};
ghost use Rattle.watch_timers.specs.Timers.{has_run, started_at, Starts, Stops, TakesDue};

use std::alloc::{AllocError, Global};
use std::collections::{BTreeMap, BTreeSet};
use std::marker::Model;
use xc_base::{Key, List, Memory, Time};

/// For how many milliseconds a resource is waited for.
const PATIENCE: u64 = 15_000;

/// A key whose timer runs, and since when. The earlier start stands first, and of equal starts the lesser key.
#[derive(Drop, PartialEq, Eq, PartialOrd, Ord)]
pub struct Started {
    /// When the timer was started, in milliseconds.
    pub at: Time,
    /// The resource that is waited for.
    pub key: Key,
}

/// The timers that run, which contracts see as the list of their keys and beginnings in the order of the keys.
#[derive(Drop)]
pub struct Timers {
    alloc: Global,
    starts: BTreeMap<Key, Time>,
    /// The same timers, the earliest start first.
    order: BTreeSet<Started>,
}

impl Model for Timers {
    ghost use Rattle.watch_timers.specs.StartOrder.{IsOrderOf};
    ghost use Rattle.watch_timers.specs.Timers.{Running};

    ghost Value = { Running };

    ghost view = { λ t. t.starts.entries };

    ghost invariant = { λ t. IsOrderOf t.order.keys t.starts.entries };
}

/// Whether a timer that was started then has run out.
fn has_run_out(at: Time, now: Time) -> bool
    ensures { result ≡ has_run now at }
{
    match now.0.checked_sub(at.0) {
        Some(run) => run >= PATIENCE,
        None => false,
    }
}

/// A copy of each key.
fn copies(alloc: Global, keys: &[&Key]) -> Result<List<Key>, Memory>
    ensures { IfOk result (λ copies. copies ≡ map (λ key. key.now) keys.now) }
{
    let mut copies = List::new(alloc);
    for key in keys {
        copies.push((*key).clone()?)?;
    }
    Ok(copies)
}

/// How many timers have run out. They stand first. It takes no memory.
fn count_due(order: &BTreeSet<Started>, now: Time) -> usize
    ensures count { result ≡ length (first_due now order.now.keys) }
    ensures ordered { IsOrdered (⟦<Started as Ord>⟧.cmp) order.now }
{
    order
        .iter()
        .take_while(|started| has_run_out(started.at, now))
        .count()
}

/// Takes out the first timer, where it has run out. It takes no memory.
fn take_first_due(order: &mut BTreeSet<Started>, now: Time) -> Option<Started>
    ensures due { IfSome result (λ started. has_run now started.at ≡ true) }
    ensures first { IfSome result (λ started. order.old.keys ≡ started ∷ order.new.keys) }
    ensures updates { IfSome result (λ started. Updates (⟦<Started as Ord>⟧.cmp) order.old order.new started false) }
    ensures none { IfNone result (first_due now order.old.keys ≡ []) }
    ensures left { IfNone result (order.new ≡ order.old) }
{
    let first = order.first()?;
    if has_run_out(first.at, now) {
        order.pop_first()
    } else {
        None
    }
}

/// Takes out the timers that have run out, and puts their keys into a list that has room for them. It takes no memory.
fn take_due(
    order: &mut BTreeSet<Started>,
    starts: &mut BTreeMap<Key, Time>,
    now: Time,
    keys: &mut Vec<Key>,
)
    requires room { length keys.old.items + length (first_due now order.old.keys) ≤ vec_capacity keys.old }
    requires same { IsOrderOf order.old.keys starts.old.entries }
    ensures keys { keys.new.items ≡ keys.old.items ++ map (λ started. started.key) (first_due now order.old.keys) }
    ensures left { order.new.keys ≡ after_due now order.old.keys }
    ensures same { IsOrderOf order.new.keys starts.new.entries }
{
    while let Some(started) = take_first_due(order, now) {
        starts.remove(&started.key);
        keys.push_reserved(started.key);
    }
}

/// Starts the timer of a key that has none. Without memory none is started.
fn add_start(
    order: &mut BTreeSet<Started>,
    starts: &mut BTreeMap<Key, Time>,
    key: &Key,
    at: Time,
) -> Result<(), Memory>
    requires absent { started_at starts.old.entries key.now ≡ None }
    requires same { IsOrderOf order.old.keys starts.old.entries }
    ensures ok { OnOk result (Starts starts.old.entries starts.new.entries key.now at) }
    ensures err { OnErr result (starts.new.entries ≡ starts.old.entries) }
    ensures same { IsOrderOf order.new.keys starts.new.entries }
{
    let copy = key.clone()?;
    let key = key.clone()?;
    order.insert(Started { at, key })?;
    match starts.insert(copy, at) {
        Ok(_) => Ok(()),
        Err(refused) => {
            let (key, at) = refused.value;
            order.remove(&Started { at, key });
            Err(AllocError)
        }
    }
}

/// Ends the key's timer, where it runs. It takes no memory.
fn remove_start(order: &mut BTreeSet<Started>, starts: &mut BTreeMap<Key, Time>, key: &Key)
    requires same { IsOrderOf order.old.keys starts.old.entries }
    ensures stops { Stops starts.old.entries starts.new.entries key.now }
    ensures same { IsOrderOf order.new.keys starts.new.entries }
{
    if let Some((key, at)) = starts.remove_entry(key) {
        order.remove(&Started { at, key });
    }
}

impl Timers {
    /// No timers. It takes no memory.
    pub fn new(alloc: Global) -> Timers
        ensures { result ≡ [] }
    {
        Timers {
            alloc,
            starts: BTreeMap::new(alloc),
            order: BTreeSet::new(alloc),
        }
    }

    /// Whether none runs. It takes no memory.
    pub fn is_empty(&self) -> bool
        ensures { IsTrue result ↔ (self.now ≡ []) }
    {
        self.starts.is_empty()
    }

    /// The keys whose timers run, in their order. It fails for want of memory alone.
    pub fn running(&self) -> Result<List<Key>, Memory>
        ensures { IfOk result (λ keys. keys ≡ keys_of self.now) }
    {
        let keys: Vec<&Key> = self.starts.keys().collect(self.alloc)?;
        copies(self.alloc, keys.as_slice())
    }

    /// Whether the key's timer runs. It takes no memory.
    pub fn is_running(&self, key: &Key) -> bool
        ensures { result ≡ is_some (started_at self.now key.now) }
    {
        self.starts.contains_key(key)
    }

    /// Starts the key's timer at this moment. One that runs keeps the time of its first start. Without memory nothing
    /// changes.
    pub fn start(&mut self, key: &Key, at: Time) -> Result<(), Memory>
        ensures ok { OnOk result (Starts self.old self.new key.now at) }
        ensures err { OnErr result (self.new ≡ self.old) }
    {
        if self.starts.contains_key(key) {
            return Ok(());
        }
        add_start(&mut self.order, &mut self.starts, key, at)
    }

    /// Ends the key's timer, where it runs. It takes no memory.
    pub fn cancel(&mut self, key: &Key)
        ensures { Stops self.old self.new key.now }
    {
        remove_start(&mut self.order, &mut self.starts, key);
    }

    /// Takes out the keys whose timers have run for at least 15,000 ms at this moment, in the order of their starts, and
    /// those of one start by kind and name. Without memory none is taken out.
    pub fn due(&mut self, now: Time) -> Result<List<Key>, Memory>
        ensures ok { IfOk result (λ keys. TakesDue self.old now keys self.new) }
        ensures err { OnErr result (self.new ≡ self.old) }
    {
        let count = count_due(&self.order, now);
        let mut keys = Vec::with_capacity(self.alloc, count)?;
        take_due(&mut self.order, &mut self.starts, now, &mut keys);
        Ok(List::from_vec(keys))
    }
}
