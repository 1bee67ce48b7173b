//! The timers of wanted keys.
ghost use Rattle.std.specs.Prelude.{◌≡◌, ◌≤◌, ◌+◌, ◌∷◌, [], ◌++◌, ◌&&◌, List, true, false, filter, length, None, OnOk, IfOk, if◌then◌else◌};
ghost use Rattle.std.specs.Map.{keys_of};
ghost use Rattle.xc_base.specs.declared.names.Key.{Key as KeyValue};
ghost use Rattle.xc_base.specs.declared.names.Time.{Time as TimeValue};
ghost use Rattle.call_journal.specs.declared.event.DriverEvent.{DriverEvent as EventValue};
ghost use Rattle.call_journal.specs.declared.entry.Entry.{Entry as EntryValue};
ghost use Rattle.watch_timers.specs.Timers.{Starts, TakesDue};
ghost use Rattle.xds_cache.specs.KeptFates.{fate_of, known_of, shown};
ghost use Rattle.config_assembly.specs.Reach.{is_wanted};
ghost use Rattle.xds_history.specs.Words.{same_authority, same_kind};
ghost use Rattle.std.specs.List.{list_any};
ghost use Rattle.config_assembly.specs.Watching.{has_key};
ghost use Rattle.xds_history.specs.Setting.{Setting};
ghost use Rattle.xds_history.specs.Responses.{Came};
ghost use Rattle.xds_history.specs.declared.page.Page.{Page as PageValue};
ghost use Rattle.xds_history.specs.Page.{watched_now};
ghost use Rattle.xds_history.specs.Fates.{marked};
ghost use Rattle.book_fates.specs.FateSteps.{Knows, Stepped, out_among};
ghost use Rattle.book_fates.specs.Timing.{AreTimed, expires_at, Stopped, StoppedBy, StartedBy, is_turned, is_lost, lost_among, unreached_among, asked_among, asks_at, is_idle};

use crate::fates::take_out;
use crate::key_set::key_set;
use crate::part_tests::same_kind;
use call_journal::Sent;
use std::alloc::Global;
use std::collections::BTreeSet;
use std::sync::ledger::Ledger;
use watch_timers::Timers;
use xc_base::{Authority, Home, Key, Kind, List, Memory, Steps, Time};
use xds_cache::{Cache, Fate};

/// Takes away the keys that were waited for in vain, and answers them. It fails for want of memory alone.
pub fn expire(cache: &mut Cache, timers: &mut Timers, now: Time) -> Result<List<Key>, Memory>
    ensures due { IfOk result (λ keys. TakesDue timers.old now keys timers.new) }
    ensures step { IfOk result (λ keys. Stepped cache.old cache.new (out_among keys)) }
    ensures expired { IfOk result (λ keys. (past : List EntryValue) (ps : List PageValue) → AreTimed past ps timers.old → (key : KeyValue) → has_key keys key ≡ expires_at past ps now key key.home) }
    ensures knows { OnOk result ((s : Setting) (c : Came) (past : List EntryValue) (ps : List PageValue) (time : TimeValue) → c.event ≡ EventValue.Moment time → AreTimed past ps timers.old → Knows cache.old (watched_now ps) → Knows cache.new (marked s c past ps now)) }
{
    let keys = timers.due(now)?;
    take_out(cache, keys.as_slice());
    Ok(keys)
}

// ---- by tests of keys

/// Whether the stream of a home was opened or ended.
fn is_turned(turn: Option<Authority>, home: Home) -> bool
    ensures { result ≡ is_turned turn home }
{
    match (turn, home) {
        (Some(a), Home::At(b)) => a.0 == b.0,
        _ => false,
    }
}

/// Whether a fate is that nothing came yet.
fn is_wanted(fate: Fate<'_>) -> bool
    ensures { result ≡ is_wanted (shown fate.entry) }
{
    matches!(fate, Fate::Wanted)
}

/// Whether the key is no longer wanted by what came.
fn is_lost<L: Ledger>(cache: &Cache, key: &Key, steps: &mut Steps<L>) -> bool
    ensures lost { result ≡ is_lost None cache.now key.now }
    ensures cost { steps.new ≤ steps.old + 1 }
{
    !is_wanted(cache.get(key, steps))
}

/// Ends the timers of those of these keys that are no longer wanted by what came.
fn stop_each_lost<L: Ledger>(timers: &mut Timers, cache: &Cache, keys: &[Key], steps: &mut Steps<L>)
    ensures stopped { StoppedBy timers.old timers.new (lost_among keys.now None cache.now) }
    ensures cost { steps.new ≤ steps.old + length keys.now }
{
    for key in keys {
        if is_lost(cache, key, steps) {
            timers.cancel(key);
        }
    }
}

/// Ends the timers of those of these keys that are no longer wanted by what came. Where no timer runs it looks at no key. It
/// takes no memory.
pub fn stop_lost<L: Ledger>(timers: &mut Timers, cache: &Cache, keys: &[Key], steps: &mut Steps<L>)
    ensures stopped { StoppedBy timers.old timers.new (lost_among keys.now None cache.now) }
    ensures cost { steps.new ≤ steps.old + length keys.now }
{
    if !timers.is_empty() {
        stop_each_lost(timers, cache, keys, steps);
    }
}

/// Puts a key into a list, where its stream turned.
fn put_turned(turned: &mut List<Key>, turn: Option<Authority>, key: &Key) -> Result<(), Memory>
    ensures { OnOk result (turned.new ≡ (if is_turned turn key.now.home then turned.old ++ key.now ∷ [] else turned.old)) }
{
    if !is_turned(turn, key.home) {
        return Ok(());
    }
    turned.push(key.clone()?)?;
    Ok(())
}

/// Those of these keys whose stream turned.
fn turned_keys(alloc: Global, turn: Option<Authority>, keys: &[Key]) -> Result<List<Key>, Memory>
    ensures { IfOk result (λ turned. turned ≡ filter (λ key. is_turned turn key.home) keys.now) }
{
    let mut turned = List::new(alloc);
    for key in keys {
        put_turned(&mut turned, turn, key)?;
    }
    Ok(turned)
}

/// Ends the timers of these keys.
fn stop_each(timers: &mut Timers, keys: &[Key])
    ensures { Stopped timers.old timers.new keys.now }
{
    for key in keys {
        timers.cancel(key);
    }
}

/// Ends the timers of the keys whose stream turned, and answers these keys. It looks at none but those whose timers run, and
/// fails for want of memory alone.
pub fn stop_turned(
    alloc: Global,
    timers: &mut Timers,
    turn: Option<Authority>,
) -> Result<List<Key>, Memory>
    ensures turned { IfOk result (λ turned. turned ≡ filter (λ key. is_turned turn key.home) (keys_of timers.old)) }
    ensures stopped { IfOk result (Stopped timers.old timers.new) }
{
    let running = timers.running()?;
    let turned = turned_keys(alloc, turn, running.as_slice())?;
    stop_each(timers, turned.as_slice());
    Ok(turned)
}

/// Ends the timers of those of these keys that aren't in a set.
fn stop_each_unreached(timers: &mut Timers, before: &[Key], reached: &BTreeSet<Key>)
    ensures { StoppedBy timers.old timers.new (unreached_among before.now reached.now.keys) }
{
    for key in before {
        if !reached.contains(key) {
            timers.cancel(key);
        }
    }
}

/// Ends the timers of those of these keys that are no longer reached. Where no timer runs it looks at no key. It fails for want
/// of memory alone.
pub fn stop_unreached(
    alloc: Global,
    timers: &mut Timers,
    before: &[Key],
    reached: &[Key],
) -> Result<(), Memory>
    ensures { OnOk result (StoppedBy timers.old timers.new (unreached_among before.now reached.now)) }
{
    if !timers.is_empty() {
        let set = key_set(alloc, reached)?;
        stop_each_unreached(timers, before, &set);
    }
    Ok(())
}

/// Whether a request of a kind goes to an authority.
fn is_to(authority: Authority, kind: Kind, sent: &Sent) -> bool
    ensures { result ≡ (same_authority authority sent.now.authority && same_kind sent.now.request.kind kind) }
{
    authority.0 == sent.authority.0 && same_kind(sent.request.kind, kind)
}

/// Whether any request of a kind goes to an authority.
fn any_to(authority: Authority, kind: Kind, sent: &[Sent]) -> bool
    ensures { result ≡ list_any (λ x. same_authority authority x.authority && same_kind x.request.kind kind) sent.now }
{
    sent.iter().any(|x| is_to(authority, kind, x))
}

/// Whether a request of the key's kind goes to its home.
fn asks(sent: &[Sent], key: &Key) -> bool
    ensures { result ≡ asks_at sent.now key.now key.now.home }
{
    match key.home {
        Home::At(authority) => any_to(authority, key.kind, sent),
        Home::Nowhere(_) => false,
    }
}

/// Puts a key into a list, where it is wanted.
fn put_wanted<L: Ledger>(
    wanted: &mut List<Key>,
    cache: &Cache,
    key: &Key,
    steps: &mut Steps<L>,
) -> Result<(), Memory>
    ensures put { OnOk result (wanted.new ≡ (if is_wanted (fate_of cache.now key.now) then wanted.old ++ key.now ∷ [] else wanted.old)) }
    ensures cost { steps.new ≤ steps.old + 1 }
{
    if !is_wanted(cache.get(key, steps)) {
        return Ok(());
    }
    wanted.push(key.clone()?)?;
    Ok(())
}

/// Those of these keys that are wanted. It fails for want of memory alone.
pub fn wanted_keys<L: Ledger>(
    alloc: Global,
    cache: &Cache,
    keys: &[Key],
    steps: &mut Steps<L>,
) -> Result<List<Key>, Memory>
    ensures wanted { IfOk result (λ wanted. wanted ≡ filter (λ key. is_wanted (fate_of cache.now key)) keys.now) }
    ensures cost { steps.new ≤ steps.old + length keys.now }
{
    let mut wanted = List::new(alloc);
    for key in keys {
        put_wanted(&mut wanted, cache, key, steps)?;
    }
    Ok(wanted)
}

/// Starts the timer of a key, where it is asked for.
fn start_if_asked(timers: &mut Timers, key: &Key, sent: &[Sent], now: Time) -> Result<(), Memory>
    ensures asked { OnOk result (asks_at sent.now key.now key.now.home ≡ true → Starts timers.old timers.new key.now now) }
    ensures others { OnOk result (asks_at sent.now key.now key.now.home ≡ false → timers.new ≡ timers.old) }
{
    if asks(sent, key) {
        timers.start(key, now)?;
    }
    Ok(())
}

/// Starts the timers of those of these keys that are asked for. It fails for want of memory alone.
pub fn start_asked(
    timers: &mut Timers,
    keys: &[Key],
    sent: &[Sent],
    now: Time,
) -> Result<(), Memory>
    ensures { OnOk result (StartedBy timers.old timers.new (asked_among keys.now sent.now) now) }
{
    for key in keys {
        start_if_asked(timers, key, sent, now)?;
    }
    Ok(())
}

/// Puts a key into a list, where its timer doesn't run.
fn put_idle(idle: &mut List<Key>, timers: &Timers, key: &Key) -> Result<(), Memory>
    ensures { OnOk result (idle.new ≡ (if is_idle timers.now key.now then idle.old ++ key.now ∷ [] else idle.old)) }
{
    if timers.is_running(key) {
        return Ok(());
    }
    idle.push(key.clone()?)?;
    Ok(())
}

/// Those of these keys whose timers don't run. It fails for want of memory alone.
pub fn idle_keys(alloc: Global, timers: &Timers, keys: &[Key]) -> Result<List<Key>, Memory>
    ensures { IfOk result (λ idle. idle ≡ filter (is_idle timers.now) keys.now) }
{
    let mut idle = List::new(alloc);
    for key in keys {
        put_idle(&mut idle, timers, key)?;
    }
    Ok(idle)
}
