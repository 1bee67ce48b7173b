//! The dependency manager of a channel.
ghost use Rattle.std.specs.Prelude.{◌≡◌, ◌↔◌, ◌≤◌, ◌+◌, List, [], length, true, false, IfOk, IfSome, IsNone, IsOk, IsSome, IsSomeAnd, IsTrue, None, Ok, OnOk, Some, map, unwrap_or};
ghost use Rattle.std.specs.Option.{option_or};
ghost use Rattle.xc_base.specs.declared.names.Kind.TheVariants.{Listener as ListenerKind};
ghost use Rattle.std.specs.List.Sorted.{IsStrictlySortedBy};
ghost use Rattle.xc_keys.specs.Keys.{key_cmp};
ghost use Rattle.xds_config.specs.Configs.{IsLawfulConfig, IsLawfulFront};
ghost use Rattle.xds_bootstrap.specs.declared.bootstrap.AuthorityEntry.{AuthorityEntry as AuthorityValue};
ghost use Rattle.xds_name.specs.declared.target.Target.{Target as TargetValue};
ghost use Rattle.aggregate_expand.specs.Chains.{longest_chain};
ghost use Rattle.xds_cache.specs.KeptFates.{Watched, fate_of};
ghost use Rattle.config_assembly.specs.ReachedResources.{resources};
ghost use Rattle.config_assembly.specs.Orders.{Name, name_cmp, sorted};
ghost use Rattle.config_assembly.specs.Reach.{aggregates, missing, on_chains as chains_from, reach};
ghost use Rattle.config_assembly.specs.WholeConfigs.{config_where};
ghost use Rattle.config_assembly.specs.DepsViews.{seen};
ghost use Rattle.config_assembly.specs.Watching.{IsKept, IsWatching};
ghost use Rattle.dep_manager.specs.CallsAlone.{KeepsRoots};
ghost use Rattle.dep_manager.specs.EndpointNews.{are_endpoints};
ghost use Rattle.dep_manager.specs.KeptAssemblies.{AreChanges, HaveChanged, IsKeptOf, IsRightBy, kept_with};
ghost use Rattle.dep_manager.specs.ServedCalls.{AreShown, IsServing, Serves};
ghost use Rattle.dep_manager.specs.ShownEntries.{StandAsShown, marks_if, marks_left};
ghost use Rattle.dep_manager.specs.UpdateOutcomes.{IsOutcomeBy, outcome_of};
ghost use Rattle.dep_manager.specs.declared.kept_assembly.Kept.{Kept as KeptValue};

use crate::endpoint_news::are_endpoints;
use crate::kept_assembly::{Kept, assembly_of, last_to_follow, renew};
use config_assembly::watching::watch_reached;
use config_assembly::{SharedKeys, Sight};
use place_marks::Marks;
use std::alloc::Global;
use std::marker::Model;
use std::sync::ledger::Ledger;
use xc_base::{Key, List, Memory, Shared, Steps, Text};
use xds_bootstrap::Bootstrap;
use xds_cache::Cache;
use xds_config::Config;
use xds_name::Target;

/// What an update comes to (gRFC A74).
#[derive(Drop)]
pub struct Outcome {
    /// The keys that are reached, in the order of keys, each once.
    pub reached: SharedKeys,
    /// The least of them that is awaited.
    pub missing: Option<Key>,
    /// The whole configuration, which is there exactly where no reached key is awaited.
    pub config: Option<Shared<Config>>,
    /// For each of its clusters, whether its entry may be another one than the one that stood at its place in the
    /// configuration that was handed out last before this one. It is empty where there is no configuration.
    pub others: Marks,
    /// Whether the keys that are reached are known to be those that the update before reached.
    pub stays: bool,
}

/// The dependency manager: the target of a channel, the keys that the last update reached, which are those that are
/// watched, what it made, unless it failed, and the configuration that was handed out last, if any. The marks that are
/// kept tell which of the entries may be other ones than in that one.
#[derive(Drop)]
pub struct Deps {
    target: Target,
    reached: SharedKeys,
    last: Option<Kept>,
    shown: Option<Shared<Config>>,
}

impl Model for Deps {
    ghost use Rattle.std.specs.Prelude.{◌≡◌, IfSome};
    ghost use Rattle.std.specs.List.Sorted.{IsStrictlySortedBy};
    ghost use Rattle.xc_base.specs.declared.names.Kind.TheVariants.{Listener as ListenerKind};
    ghost use Rattle.xc_keys.specs.Keys.{key_cmp};
    ghost use Rattle.dep_manager.specs.KeptAssemblies.{Managed};
    ghost use Rattle.dep_manager.specs.ServedCalls.{IsHandedOut};
    ghost use Rattle.dep_manager.specs.ShownEntries.{StandAsShown};

    ghost Value = { Managed };

    ghost view = { λ d. record { target = d.target; reached = d.reached; last = d.last; shown = d.shown } };

    ghost invariant = { λ d. (d.target.key.kind ≡ ListenerKind) × IfSome d.last (λ kept. StandAsShown kept.others d.shown kept.config) × IsStrictlySortedBy key_cmp d.reached × IfSome d.last (IsHandedOut d.shown) };
}

/// What an update comes to that reached these keys, which may be known to be those of the update before, and made this. Where a
/// configuration is handed out, the marks are taken out of what was made, and no cluster is marked any more.
fn outcome_of(
    alloc: Global,
    reached: SharedKeys,
    stays: bool,
    kept: &mut Kept,
) -> Result<Outcome, Memory>
    ensures outcome { IfOk result (λ o. o ≡ outcome_of reached stays kept.old o.others) }
    ensures others { IfOk result (λ o. o.others ≡ marks_if o.missing kept.old.others) }
    ensures kept { kept.new ≡ kept_with kept.old kept.new.others }
    ensures left { IfOk result (λ o. kept.new.others ≡ marks_left o.missing kept.old.others) }
{
    let missing = kept.least()?;
    let config = kept.config_if(&missing)?;
    let others = kept.take_marks(alloc, &missing)?;
    Ok(Outcome {
        reached,
        missing,
        config,
        others,
        stays,
    })
}

impl Deps {
    /// A manager for the listener of this target, which has reached nothing yet.
    pub fn new(alloc: Global, target: Target) -> Result<Deps, Memory>
        requires { target.key.kind ≡ ListenerKind }
        ensures ok { IsOk result }
        ensures new { IfOk result (λ d. d ≡ record { target = target; reached = []; last = None; shown = None }) }
    {
        Ok(Deps {
            target,
            reached: SharedKeys::new(),
            last: None,
            shown: None,
        })
    }

    /// Keeps what an update made, and answers what it comes to where it reached these keys, which may be known to be those of the
    /// update before.
    fn keep(
        &mut self,
        alloc: Global,
        reached: SharedKeys,
        stays: bool,
        made: Kept,
    ) -> Result<Outcome, Memory>
        requires { StandAsShown made.others self.old.shown made.config }
        ensures outcome { IfOk result (λ o. o ≡ outcome_of reached stays made o.others) }
        ensures others { IfOk result (λ o. IfSome o.config (λ config. StandAsShown o.others self.old.shown config)) }
        ensures shown { IfOk result (λ o. self.new.shown ≡ option_or o.config self.old.shown) }
        ensures held { (self.new.target ≡ self.old.target) × (self.new.reached ≡ self.old.reached) }
        ensures kept { OnOk result (IsSomeAnd self.new.last (λ kept. kept ≡ kept_with made kept.others)) }
    {
        let mut kept = made;
        let outcome = outcome_of(alloc, reached, stays, &mut kept)?;
        if let Some(config) = &outcome.config {
            self.shown = Some(config.share()?);
        }
        self.last = Some(kept);
        Ok(outcome)
    }

    /// Takes out what the last update made, and answers it where these keys that changed are keys of Endpoint resources and the
    /// roots stay where calls refer to these clusters.
    fn take_last(
        &mut self,
        alloc: Global,
        changed: &[Key],
        references: &List<Text>,
    ) -> Result<Option<Kept>, Memory>
        ensures rest { self.new ≡ record { target = self.old.target; reached = self.old.reached; last = None; shown = self.old.shown } }
        ensures references { IfOk result (λ found. IfSome found (λ kept. references.now ≡ kept.references)) }
        ensures stands { IfOk result (λ found. IfSome found (λ kept. StandAsShown kept.others self.old.shown kept.config)) }
        ensures endpoints { IfOk result (λ found. IfSome found (λ kept. are_endpoints changed.now ≡ true)) }
        ensures right { IfOk result (λ found. IfSome found (λ kept. (entries : List AuthorityValue) (known : Watched) → IsRightBy entries known self.old → IsKeptOf entries known self.old.target self.old.reached kept)) }
        ensures some { IfOk result (λ found. (entries : List AuthorityValue) (known now : Watched) (last : KeptValue) → IsRightBy entries known self.old → AreChanges known now changed.now → self.old.last ≡ Some last → KeepsRoots (resources self.old.target entries now) last.references references.now → are_endpoints changed.now ≡ true → IsSome found) }
    {
        let found = last_to_follow(alloc, self.last.take(), changed, references)?;
        Ok(found)
    }

    /// Brings what the last update made up to date, where none but these Endpoint keys changed.
    fn follow<L: Ledger>(
        &mut self,
        alloc: Global,
        last: Kept,
        changed: &List<Key>,
        cache: &Cache,
        steps: &mut Steps<L>,
    ) -> Result<Outcome, Memory>
        requires endpoints { are_endpoints changed.now ≡ true }
        requires stands { StandAsShown last.others self.old.shown last.config }
        ensures outcome { IfOk result (λ o. (entries : List AuthorityValue) (known : Watched) (references : List Name) → IsKeptOf entries known self.old.target self.old.reached last → AreChanges known cache.now changed.now → Serves references last → IsOutcomeBy (resources self.old.target entries cache.now) references o) }
        ensures serves { OnOk result ((entries : List AuthorityValue) (known : Watched) (references : List Name) → IsKeptOf entries known self.old.target self.old.reached last → AreChanges known cache.now changed.now → Serves references last → IsServing self.new references) }
        ensures watched { IfOk result (λ o. (entries : List AuthorityValue) (known : Watched) → IsKeptOf entries known self.old.target self.old.reached last → AreChanges known cache.now changed.now → IsWatching cache.now cache.now o.reached) }
        ensures kept { IfOk result (λ o. (entries : List AuthorityValue) (known : Watched) → IsKeptOf entries known self.old.target self.old.reached last → AreChanges known cache.now changed.now → IsRightBy entries cache.now self.new) }
        ensures held { IfOk result (λ o. (self.new.target ≡ self.old.target) × (self.new.reached ≡ o.reached)) }
        ensures stays { IfOk result (λ o. (o.stays ≡ true) × (o.reached ≡ self.old.reached)) }
        ensures others { IfOk result (λ o. IfSome o.config (λ config. StandAsShown o.others self.old.shown config)) }
        ensures shown { IfOk result (λ o. self.new.shown ≡ option_or o.config self.old.shown) }
        ensures cost { steps.new ≤ steps.old + length changed.now }
        ensures rises { steps.old ≤ steps.new }
    {
        let kept = renew(alloc, last, changed.as_slice(), cache, steps)?;
        let reached = self.reached.share()?;
        let outcome = self.keep(alloc, reached, true, kept)?;
        Ok(outcome)
    }

    /// Whether what the last update made serves calls as long as they refer to none but clusters of the configuration that was
    /// handed out last: it is that configuration, and no cluster of it is there for calls alone. It takes no memory.
    pub fn serves_its_host(&self) -> bool
        ensures { IsTrue result → (entries : List AuthorityValue) (known : Watched) (references : List Name) → IsRightBy entries known self.now → AreShown self.now.shown references → IsServing self.now references }
    {
        match &self.last {
            Some(kept) => kept.calls_alone.is_empty() && kept.awaited.is_empty(),
            None => false,
        }
    }

    /// Whether what the last update made serves calls that refer to these clusters. Each of them may be looked up, unless they
    /// are those for which it was made.
    pub fn serves(&self, alloc: Global, references: &List<Text>) -> Result<bool, Memory>
        ensures { IfOk result (λ serves. (entries : List AuthorityValue) (known : Watched) → IsRightBy entries known self.now → (IsTrue serves ↔ IsServing self.now references.now)) }
    {
        match &self.last {
            Some(kept) => kept.serves(alloc, references),
            None => Ok(false),
        }
    }

    /// Brings what the last update made up to date where none but these Endpoint keys changed and it serves calls, so that these
    /// aren't asked what they refer to. Each of the keys is looked at once and nothing else is, what they don't touch is the same
    /// shared value as before, and the same keys stay reached and watched. Where another key changed, or no update made
    /// anything, nothing is answered and nothing changes.
    pub fn update_in_place<L: Ledger>(
        &mut self,
        alloc: Global,
        changed: &List<Key>,
        cache: &Cache,
        steps: &mut Steps<L>,
    ) -> Result<Option<Outcome>, Memory>
        ensures none { result ≡ Ok None → self.new ≡ self.old }
        ensures outcome { IfOk result (λ found. IfSome found (λ o. (entries : List AuthorityValue) (known : Watched) (references : List Name) → IsRightBy entries known self.old → AreChanges known cache.now changed.now → IfSome self.old.last (Serves references) → IsOutcomeBy (resources self.old.target entries cache.now) references o)) }
        ensures serves { IfOk result (λ found. IfSome found (λ o. (entries : List AuthorityValue) (known : Watched) (references : List Name) → IsRightBy entries known self.old → AreChanges known cache.now changed.now → IfSome self.old.last (Serves references) → IsServing self.new references)) }
        ensures watched { IfOk result (λ found. IfSome found (λ o. (entries : List AuthorityValue) (known : Watched) → IsRightBy entries known self.old → AreChanges known cache.now changed.now → IsWatching cache.now cache.now o.reached)) }
        ensures kept { IfOk result (λ found. IfSome found (λ o. (entries : List AuthorityValue) (known : Watched) → IsRightBy entries known self.old → AreChanges known cache.now changed.now → IsRightBy entries cache.now self.new)) }
        ensures held { IfOk result (λ found. IfSome found (λ o. (self.new.target ≡ self.old.target) × (self.new.reached ≡ o.reached))) }
        ensures stays { IfOk result (λ found. IfSome found (λ o. (o.stays ≡ true) × (o.reached ≡ self.old.reached))) }
        ensures rising { IfOk result (λ found. IfSome found (λ o. IsStrictlySortedBy key_cmp o.reached)) }
        ensures others { IfOk result (λ found. IfSome found (λ o. IfSome o.config (λ config. StandAsShown o.others self.old.shown config))) }
        ensures shown { IfOk result (λ found. IfSome found (λ o. self.new.shown ≡ option_or o.config self.old.shown)) }
        ensures cost { steps.new ≤ steps.old + length changed.now }
        ensures follows { IsSome self.old.last → are_endpoints changed.now ≡ true → IfOk result IsSome }
    {
        if !are_endpoints(changed.as_slice()) {
            return Ok(None);
        }
        let Some(last) = self.last.take() else {
            return Ok(None);
        };
        let outcome = self.follow(alloc, last, changed, cache, steps)?;
        Ok(Some(outcome))
    }

    /// Makes all from nothing, and has the cache watch what is reached.
    fn begin<L: Ledger>(
        &mut self,
        alloc: Global,
        boot: &Bootstrap,
        references: &List<Text>,
        cache: &mut Cache,
        steps: &mut Steps<L>,
    ) -> Result<Outcome, Memory>
        requires { IsKept cache.old self.old.reached (reach (resources self.old.target boot.now.authorities cache.old) references.now) }
        ensures outcome { IfOk result (λ o. IsOutcomeBy (resources self.old.target boot.now.authorities cache.old) references.now o) }
        ensures watched { IfOk result (λ o. IsWatching cache.old cache.new o.reached) }
        ensures kept { IfOk result (λ o. IsRightBy boot.now.authorities cache.new self.new) }
        ensures serves { OnOk result (IsServing self.new references.now) }
        ensures held { IfOk result (λ o. (self.new.target ≡ self.old.target) × (self.new.reached ≡ o.reached)) }
        ensures stays { IfOk result (λ o. o.stays ≡ false) }
        ensures others { IfOk result (λ o. IfSome o.config (λ config. StandAsShown o.others self.old.shown config)) }
        ensures shown { IfOk result (λ o. self.new.shown ≡ option_or o.config self.old.shown) }
    {
        let sight = Sight {
            alloc,
            target: &self.target,
            boot,
            cache,
        };
        let made = assembly_of(sight, references.as_slice(), steps)?;
        watch_reached(
            alloc,
            cache,
            self.reached.as_slice(),
            made.reached.as_slice(),
        )?;
        let reached = SharedKeys::of(alloc, made.reached)?;
        let shared = reached.share()?;
        let outcome = self.keep(alloc, shared, false, made.kept)?;
        self.reached = reached;
        Ok(outcome)
    }

    /// What is reached, awaited and configured by what the cache knows, where the references are the clusters that
    /// calls hold or have pinned. From then on the cache watches the reached keys and no others. Each key that it
    /// watched before must have been reached by the last update, or be reached now, and each of which something else is
    /// known than then must be one of those that changed. Where these are keys of Endpoint resources and the roots are those of
    /// the last update, each of them is looked at once and nothing else is, what they don't touch is the same shared
    /// value as before, and the outcome says that the reached keys stay; else all is made from nothing. The roots are the clusters
    /// that the front's host names or that calls refer to; where calls refer to others than at the last update, each of these
    /// names is looked up. With the configuration come marks of the clusters whose
    /// entries may be other ones than in the configuration that was handed out last: one without a mark has the entry that
    /// stood at its place in that one. After want of memory the cache may watch some of the keys alone.
    pub fn update<L: Ledger>(
        &mut self,
        alloc: Global,
        boot: &Bootstrap,
        changed: &List<Key>,
        references: &List<Text>,
        cache: &mut Cache,
        steps: &mut Steps<L>,
    ) -> Result<Outcome, Memory>
        requires watched { IsKept cache.old self.old.reached (reach (resources self.old.target boot.now.authorities cache.old) references.now) }
        requires changed { HaveChanged boot.now.authorities self.old cache.old changed.now }
        ensures reached { IfOk result (λ o. o.reached ≡ reach (resources self.old.target boot.now.authorities cache.old) references.now) }
        ensures rising { IfOk result (λ o. IsStrictlySortedBy key_cmp o.reached) }
        ensures missing { IfOk result (λ o. o.missing ≡ missing (fate_of cache.old) o.reached) }
        ensures config { IfOk result (λ o. o.config ≡ config_where o.missing (resources self.old.target boot.now.authorities cache.old) references.now) }
        ensures whole { IfOk result (λ o. IsSome o.config ↔ IsNone o.missing) }
        ensures lawful { IfOk result (λ o. IfSome o.config IsLawfulConfig) }
        ensures watched { IfOk result (λ o. IsWatching cache.old cache.new o.reached) }
        ensures held { IfOk result (λ o. (self.new.target ≡ self.old.target) × (self.new.reached ≡ o.reached)) }
        ensures stays { IfOk result (λ o. o.stays ≡ true → o.reached ≡ self.old.reached) }
        ensures others { IfOk result (λ o. IfSome o.config (λ config. StandAsShown o.others self.old.shown config)) }
        ensures shown { IfOk result (λ o. self.new.shown ≡ option_or o.config self.old.shown) }
        ensures kept { IfOk result (λ o. IsRightBy boot.now.authorities cache.new self.new) }
        ensures serves { OnOk result (IsServing self.new references.now) }
        ensures still { (last : KeptValue) → self.old.last ≡ Some last → KeepsRoots (resources self.old.target boot.now.authorities cache.old) last.references references.now → changed.now ≡ [] → steps.new ≡ steps.old }
        ensures cost { (last : KeptValue) → self.old.last ≡ Some last → KeepsRoots (resources self.old.target boot.now.authorities cache.old) last.references references.now → are_endpoints changed.now ≡ true → steps.new ≤ steps.old + length changed.now }
        ensures follows { (last : KeptValue) → self.old.last ≡ Some last → KeepsRoots (resources self.old.target boot.now.authorities cache.old) last.references references.now → are_endpoints changed.now ≡ true → IfOk result (λ o. o.stays ≡ true) }
    {
        let found = self.take_last(alloc, changed.as_slice(), references)?;
        match found {
            Some(last) => {
                let outcome = self.follow(alloc, last, changed, cache, steps)?;
                Ok(outcome)
            }
            None => {
                let outcome = self.begin(alloc, boot, references, cache, steps)?;
                Ok(outcome)
            }
        }
    }
}
