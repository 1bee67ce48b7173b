//! What is told of keys that changed.
ghost use Rattle.std.specs.Prelude.{◌≡◌, ◌↔◌, ◌<◌, ◌≤◌, ◌+◌, [], None, Some, IfOk, IsTrue, OnOk, filter, length, option_map, slice_get, if◌then◌else◌};
ghost use Rattle.std.specs.List.Sorted.{IsStrictlySortedBy};
ghost use Rattle.std.specs.Map.{keys_of};
ghost use Rattle.xc_base.specs.declared.names.Key.{Key as KeyValue};
ghost use Rattle.xc_keys.specs.Keys.{is_key, key_cmp};
ghost use Rattle.xds_config.specs.Endpoints.{IsLawfulEndpoints};
ghost use Rattle.xds_cache.specs.KeptFates.{fate_of, shown};
ghost use Rattle.config_assembly.specs.Reach.{is_wanted};
ghost use Rattle.config_assembly.specs.Watching.{has_key};
ghost use Rattle.config_assembly.specs.WholeConfigs.{endpoints_of};
ghost use Rattle.dep_manager.specs.EndpointNews.{AreLawfulNews, are_endpoints, is_awaited, state_in};

use key_table::KeyTable;
use std::alloc::Global;
use std::collections::{BTreeMap, BTreeSet};
use std::marker::Model;
use std::sync::ledger::Ledger;
use xc_base::{Key, Kind, Memory, Reason, Shared, Steps};
use xds_cache::{Cache, Fate};
use xds_config::{EndpointValue, Value};

/// What is gathered of keys that changed, key by key.
#[derive(Drop)]
struct Gathered {
    states: BTreeMap<Key, Result<Shared<EndpointValue>, Reason>>,
}

impl Model for Gathered {
    ghost use Rattle.dep_manager.specs.EndpointNews.{Told};

    ghost Value = { Told };

    ghost view = { λ n. n.states.entries };
}

impl Gathered {
    /// Nothing is told yet.
    fn new(alloc: Global) -> Gathered
        ensures { result ≡ [] }
    {
        Gathered {
            states: BTreeMap::new(alloc),
        }
    }

    /// Tells the endpoints of a key.
    fn put(&mut self, key: &Key, state: Result<Shared<EndpointValue>, Reason>) -> Result<(), Memory>
        requires { IfOk state IsLawfulEndpoints }
        ensures state { OnOk result ((other : KeyValue) → state_in self.new other ≡ (if is_key key.now other then Some state else state_in self.old other)) }
        ensures lawful { OnOk result (AreLawfulNews self.old → AreLawfulNews self.new) }
    {
        let before = self.states.insert(key.clone()?, state)?;
        drop(before);
        Ok(())
    }

    /// All that was told.
    fn into_news(self, alloc: Global) -> Result<News, Memory>
        ensures { IfOk result (λ news. news ≡ self) }
    {
        let states = KeyTable::of(alloc, self.states)?;
        Ok(News { states })
    }
}

/// The endpoints of each key that changed, or why there are none, by its key.
#[derive(Drop)]
pub struct News {
    states: KeyTable<Result<Shared<EndpointValue>, Reason>>,
}

impl Model for News {
    ghost use Rattle.dep_manager.specs.EndpointNews.{Told};

    ghost Value = { Told };

    ghost view = { λ n. n.states };
}

impl News {
    /// Of how many keys something is told.
    pub fn len(&self) -> usize
        ensures { result ≡ length self.now }
    {
        self.states.len()
    }

    /// Whether nothing is told.
    pub fn is_empty(&self) -> bool
        ensures { IsTrue result ↔ (self.now ≡ []) }
    {
        self.states.is_empty()
    }

    /// The key at a place, from 0, of those of which something is told, in the order of keys.
    pub fn key(&self, place: usize) -> &Key
        requires { place < length self.now }
        ensures { slice_get (keys_of self.now) place ≡ Some result.now }
    {
        self.states.key(place)
    }
}

/// Reads what is told of keys that are asked for in nearly the order of keys: the place behind the one that was found last is
/// tried first.
#[derive(Drop)]
pub struct NewsReader<'a> {
    news: &'a News,
    near: usize,
}

impl<'a> Model for NewsReader<'a> {
    ghost use Rattle.dep_manager.specs.EndpointNews.{Told};

    ghost Value = { Told };

    ghost view = { λ r. r.news.now };
}

impl<'a> NewsReader<'a> {
    /// Reads these from the first one on.
    pub fn of(news: &'a News) -> NewsReader<'a>
        ensures { result ≡ news.now }
    {
        NewsReader { news, near: 0 }
    }

    /// What is told of a key.
    pub fn get(&mut self, key: &Key) -> Option<&'a Result<Shared<EndpointValue>, Reason>>
        ensures state { option_map (λ s. s.now) result ≡ state_in self.old key.now }
        ensures same { self.new ≡ self.old }
    {
        let news = self.news;
        news.states.get(key, &mut self.near)
    }
}

/// The endpoints that are known, or why there are none.
fn endpoints_of(fate: Fate<'_>) -> Result<Result<Shared<EndpointValue>, Reason>, Memory>
    ensures { IfOk result (λ state. state ≡ endpoints_of (shown fate.entry)) }
{
    match fate {
        Fate::Value(Value::Endpoint(endpoints)) => Ok(Ok(endpoints.share()?)),
        Fate::Invalid(reason) => Ok(Err(*reason)),
        _ => Ok(Err(Reason::Absent)),
    }
}

/// Whether nothing is known yet.
fn is_wanted(fate: Fate<'_>) -> bool
    ensures { result ≡ is_wanted (shown fate.entry) }
{
    matches!(fate, Fate::Wanted)
}

/// Whether a key that has this fate is watched, and nothing is known of it yet.
fn is_awaited(cache: &Cache, key: &Key, fate: Fate<'_>) -> bool
    requires { shown fate ≡ fate_of cache.now key.now }
    ensures { result ≡ is_awaited cache.now key.now }
{
    is_wanted(fate) && cache.is_watched(key)
}

/// Whether all these are keys of Endpoint resources.
pub fn are_endpoints(keys: &[Key]) -> bool
    ensures { result ≡ are_endpoints keys.now }
{
    keys.iter().all(|key| matches!(key.kind, Kind::Endpoint))
}

/// Puts a key among those that are awaited, or takes it from them.
fn set_awaited(awaited: &mut BTreeSet<Key>, key: &Key, waits: bool) -> Result<(), Memory>
    ensures awaited { OnOk result ((other : KeyValue) → has_key awaited.new.keys other ≡ (if is_key key.now other then waits else has_key awaited.old.keys other)) }
    ensures rising { OnOk result (IsStrictlySortedBy key_cmp awaited.new.keys) }
{
    if waits {
        awaited.insert(key.clone()?)?;
        return Ok(());
    }
    awaited.remove(key);
    Ok(())
}

/// Those of these keys that are awaited, where they are in order.
pub fn awaited_of<L: Ledger>(
    alloc: Global,
    cache: &Cache,
    keys: &[Key],
    steps: &mut Steps<L>,
) -> Result<BTreeSet<Key>, Memory>
    requires { IsStrictlySortedBy key_cmp keys.now }
    ensures { IfOk result (λ awaited. awaited.keys ≡ filter (λ key. is_wanted (fate_of cache.now key)) keys.now) }
{
    let mut awaited = BTreeSet::new(alloc);
    for key in keys {
        set_awaited(&mut awaited, key, is_wanted(cache.get(key, steps)))?;
    }
    Ok(awaited)
}

/// Looks at a key that changed.
fn look<L: Ledger>(
    gathered: &mut Gathered,
    awaited: &mut BTreeSet<Key>,
    cache: &Cache,
    key: &Key,
    steps: &mut Steps<L>,
) -> Result<(), Memory>
    ensures news { OnOk result ((other : KeyValue) → state_in gathered.new other ≡ (if is_key key.now other then Some (endpoints_of (fate_of cache.now key.now)) else state_in gathered.old other)) }
    ensures awaited { OnOk result ((other : KeyValue) → has_key awaited.new.keys other ≡ (if is_key key.now other then is_awaited cache.now key.now else has_key awaited.old.keys other)) }
    ensures rising { OnOk result (IsStrictlySortedBy key_cmp awaited.new.keys) }
    ensures lawful { OnOk result (AreLawfulNews gathered.old → AreLawfulNews gathered.new) }
    ensures one_step { steps.new ≡ steps.old + 1 }
{
    let fate = cache.get(key, steps);
    set_awaited(awaited, key, is_awaited(cache, key, fate))?;
    let state = endpoints_of(fate)?;
    gathered.put(key, state)
}

/// What is told of these keys, of which those that are watched and awaited are put among the others that are. Each counts one step.
pub fn news_of<L: Ledger>(
    alloc: Global,
    cache: &Cache,
    changed: &[Key],
    awaited: &mut BTreeSet<Key>,
    steps: &mut Steps<L>,
) -> Result<News, Memory>
    ensures news { IfOk result (λ news. (key : KeyValue) → state_in news key ≡ (if has_key changed.now key then Some (endpoints_of (fate_of cache.now key)) else None)) }
    ensures awaited { OnOk result ((key : KeyValue) → has_key awaited.new.keys key ≡ (if has_key changed.now key then is_awaited cache.now key else has_key awaited.old.keys key)) }
    ensures rising { OnOk result (IsStrictlySortedBy key_cmp awaited.old.keys → IsStrictlySortedBy key_cmp awaited.new.keys) }
    ensures lawful { IfOk result AreLawfulNews }
    ensures cost { steps.new ≤ steps.old + length changed.now }
    ensures rises { steps.old ≤ steps.new }
{
    let mut gathered = Gathered::new(alloc);
    for key in changed {
        look(&mut gathered, awaited, cache, key, steps)?;
    }
    let news = gathered.into_news(alloc)?;
    Ok(news)
}
