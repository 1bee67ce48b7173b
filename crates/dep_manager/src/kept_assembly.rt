//! What is kept from one update to the next.
ghost use Rattle.std.specs.Prelude.{◌≡◌, ◌↔◌, ◌≤◌, ◌+◌, List, Option, [], length, map, replicate, true, Some, Err, IfOk, IfSome, IsSome, IsSomeAnd, IsTrue, OnOk, unwrap_or};
ghost use Rattle.std.specs.List.Sorted.{IsStrictlySortedBy};
ghost use Rattle.xc_base.specs.declared.names.Kind.TheVariants.{Listener as ListenerKind};
ghost use Rattle.xc_base.specs.declared.names.Key.{Key as KeyValue};
ghost use Rattle.xc_base.specs.declared.reason.Reason.TheVariants.{Absent as AbsentReason};
ghost use Rattle.xds_config.specs.Configs.{IsLawfulConfig, IsLawfulFront};
ghost use Rattle.xds_config.specs.declared.config.Config.{Config as ConfigValue};
ghost use Rattle.xds_bootstrap.specs.declared.bootstrap.AuthorityEntry.{AuthorityEntry as AuthorityValue};
ghost use Rattle.xds_name.specs.declared.target.Target.{Target as TargetValue};
ghost use Rattle.aggregate_expand.specs.Chains.{longest_chain};
ghost use Rattle.xds_cache.specs.KeptFates.{Watched};
ghost use Rattle.config_assembly.specs.Orders.{name_cmp, sorted};
ghost use Rattle.config_assembly.specs.Reach.{aggregates, on_chains as chains_from};
ghost use Rattle.config_assembly.specs.ReachedResources.{Resources};
ghost use Rattle.config_assembly.specs.WholeConfigs.{cluster_entry};
ghost use Rattle.config_assembly.specs.DepsViews.{seen};
ghost use Rattle.dep_manager.specs.CallsAlone.{KeepsRoots};
ghost use Rattle.dep_manager.specs.EndpointNews.{are_endpoints};
ghost use Rattle.dep_manager.specs.KeptAssemblies.{AreChanges, IsAssembledOf, IsKeptOf, config_if, kept_for, kept_with, least_of};
ghost use Rattle.dep_manager.specs.ShownEntries.{StandAsShown, marks_if, marks_left};
ghost use Rattle.dep_manager.specs.declared.kept_assembly.Kept.{Kept as KeptValue};

use crate::config_renewal::renewed_config;
use crate::endpoint_news::{are_endpoints, awaited_of, news_of};
use crate::kept_roots::{calls_alone, keeps_roots};
use crate::leaf_sources::{LeafSources, sources_of_all};
use crate::mark_sets::MarkSet;
use config_assembly::assemble::config;
use config_assembly::front::front;
use config_assembly::reach::{on_chains, reached_keys, roots};
use config_assembly::{Sight, Table};
use place_marks::Marks;
use std::alloc::Global;
use std::collections::BTreeSet;
use std::mem;
use std::sync::ledger::Ledger;
use xc_base::{Key, List, Memory, Reason, Same, Shared, Steps, Text};
use xds_cache::Cache;
use xds_config::{Config, Front};

/// What an update made.
#[derive(Drop)]
pub struct Kept {
    /// The clusters to which calls referred when this was made, or when it was last asked whether it serves others. What they
    /// refer to since has the same roots.
    pub references: List<Text>,
    /// Those of them that the front's host doesn't name.
    pub calls_alone: List<Text>,
    /// Those of the reached keys that are awaited.
    pub awaited: BTreeSet<Key>,
    /// The configuration as far as it is known: what is awaited is absent from it.
    pub config: Shared<Config>,
    /// For each of its clusters, the Endpoint key of each leaf, where the leaf's cluster is known.
    pub sources: LeafSources,
    /// For each of its clusters, whether its entry may be another one than the one that stood at its place in the
    /// configuration that was handed out last.
    pub others: MarkSet,
}

/// What an update reached, and what it made.
#[derive(Drop)]
pub struct Assembly {
    /// The keys that are reached, in the order of keys, each once.
    pub reached: List<Key>,
    /// What is kept of it.
    pub kept: Kept,
}

/// The names of clusters that a configuration is made of, each list in the order of their bytes.
#[derive(Drop)]
struct ClusterNames {
    /// The clusters that the front's host names or that calls refer to.
    roots: List<Text>,
    /// The clusters on chains that begin with a root.
    on_chains: List<Text>,
}

// ---- from nothing

/// The same names, which share their texts.
fn copy_names(alloc: Global, names: &[Text]) -> Result<List<Text>, Memory>
    ensures { IfOk result (λ copy. copy ≡ names.now) }
{
    let mut copy = List::from_vec(Vec::with_capacity(alloc, names.len())?);
    for name in names {
        copy.push(name.clone()?)?;
    }
    Ok(copy)
}

/// The front that was found, or that it is absent.
fn front_or_absent(found: Option<Result<Front, Reason>>) -> Result<Front, Reason>
    ensures { result ≡ unwrap_or found (Err AbsentReason) }
{
    match found {
        Some(front) => front,
        None => Err(Reason::Absent),
    }
}

/// The configuration with this front and the clusters of these names.
fn config_with<L: Ledger>(
    sight: Sight<'_>,
    found: Option<Result<Front, Reason>>,
    names: &ClusterNames,
    steps: &mut Steps<L>,
) -> Result<Shared<Config>, Memory>
    requires front { IfSome found (λ front. IfOk front IsLawfulFront) }
    requires rising { IsStrictlySortedBy name_cmp names.now.roots }
    requires clusters { names.now.on_chains ≡ sorted name_cmp (chains_from (aggregates (seen sight)) longest_chain names.now.roots) }
    ensures config { IfOk result (λ config. config ≡ record { front = unwrap_or found (Err AbsentReason); clusters = map (cluster_entry (seen sight.entry)) names.now.roots }) }
    ensures lawful { IfOk result IsLawfulConfig }
{
    let front = front_or_absent(found);
    let table = Table::of(sight, names.on_chains.as_slice(), steps)?;
    config(sight, front, names.roots.as_slice(), &table, steps)
}

/// What is reached, awaited and configured by what the cache of this sight knows. Each cluster is marked.
pub fn assembly_of<L: Ledger>(
    sight: Sight<'_>,
    references: &[Text],
    steps: &mut Steps<L>,
) -> Result<Assembly, Memory>
    requires { (seen sight).target.key.kind ≡ ListenerKind }
    ensures assembled { IfOk result (λ made. IsAssembledOf (seen sight.entry) made.reached made.kept) }
    ensures references { IfOk result (λ made. made.kept.references ≡ references.now) }
    ensures lawful { IfOk result (λ made. IsLawfulConfig made.kept.config) }
    ensures marked { IfOk result (λ made. made.kept.others ≡ replicate (length made.kept.config.clusters) true) }
{
    let front = front(sight, steps)?;
    let calls_alone = calls_alone(sight.alloc, &front, references)?;
    let roots = roots(sight, &front, references)?;
    let on_chains = on_chains(sight, &roots, steps)?;
    let reached = reached_keys(sight, on_chains.as_slice(), steps)?;
    let awaited = awaited_of(sight.alloc, sight.cache, reached.as_slice(), steps)?;
    let names = ClusterNames { roots, on_chains };
    let config = config_with(sight, front, &names, steps)?;
    let sources = sources_of_all(sight, &config.get().clusters, steps)?;
    let references = copy_names(sight.alloc, references)?;
    let others = MarkSet::all(sight.alloc, config.get().clusters.len())?;
    let kept = Kept {
        references,
        calls_alone,
        awaited,
        config,
        sources,
        others,
    };
    Ok(Assembly { reached, kept })
}

// ---- from what was kept

/// What is kept where calls refer to these clusters, if the roots stay.
fn kept_for(alloc: Global, last: Kept, references: &List<Text>) -> Result<Option<Kept>, Memory>
    ensures kept { IfOk result (λ found. IfSome found (λ kept. kept ≡ kept_for last references.now)) }
    ensures stays { IfOk result (λ found. (r : Resources) (reached : List KeyValue) → IsAssembledOf r reached last → (IsSome found ↔ KeepsRoots r last.references references.now)) }
{
    if references.same(&last.references) {
        return Ok(Some(last));
    }
    if !last.keeps_roots(alloc, references.as_slice())? {
        return Ok(None);
    }
    let mut kept = last;
    kept.references = copy_names(alloc, references.as_slice())?;
    Ok(Some(kept))
}

/// What was kept, where these keys that changed are keys of Endpoint resources and the roots stay where calls refer to these
/// clusters.
pub fn last_to_follow(
    alloc: Global,
    last: Option<Kept>,
    changed: &[Key],
    references: &List<Text>,
) -> Result<Option<Kept>, Memory>
    ensures kept { IfOk result (λ found. IfSome found (λ kept. IsSomeAnd last (λ before. kept ≡ kept_for before references.now))) }
    ensures stays { IfOk result (λ found. IfSome found (λ kept. IfSome last (λ before. (r : Resources) (reached : List KeyValue) → IsAssembledOf r reached before → KeepsRoots r before.references references.now))) }
    ensures endpoints { IfOk result (λ found. IfSome found (λ kept. are_endpoints changed.now ≡ true)) }
    ensures some { IfOk result (λ found. (before : KeptValue) (r : Resources) (reached : List KeyValue) → last ≡ Some before → IsAssembledOf r reached before → KeepsRoots r before.references references.now → are_endpoints changed.now ≡ true → IsSome found) }
{
    let Some(kept) = last else {
        return Ok(None);
    };
    if !are_endpoints(changed) {
        return Ok(None);
    }
    let found = kept_for(alloc, kept, references)?;
    Ok(found)
}

/// What was kept, brought up to date where none but these Endpoint keys changed. Each counts one step. The clusters that they
/// touch are marked too.
pub fn renew<L: Ledger>(
    alloc: Global,
    last: Kept,
    changed: &[Key],
    cache: &Cache,
    steps: &mut Steps<L>,
) -> Result<Kept, Memory>
    requires { are_endpoints changed.now ≡ true }
    ensures kept { IfOk result (λ kept. (entries : List AuthorityValue) (known : Watched) (target : TargetValue) (reached : List KeyValue) → target.key.kind ≡ ListenerKind → IsKeptOf entries known target reached last → AreChanges known cache.now changed.now → IsKeptOf entries cache.now target reached kept) }
    ensures references { IfOk result (λ kept. kept.references ≡ last.references) }
    ensures stands { IfOk result (λ kept. (shown : Option ConfigValue) → StandAsShown last.others shown last.config → StandAsShown kept.others shown kept.config) }
    ensures cost { steps.new ≤ steps.old + length changed.now }
    ensures rises { steps.old ≤ steps.new }
{
    let Kept {
        references,
        calls_alone,
        mut awaited,
        config,
        sources,
        others,
    } = last;
    let news = news_of(alloc, cache, changed, &mut awaited, steps)?;
    let renewed = renewed_config(alloc, &news, config, &sources, others)?;
    Ok(Kept {
        references,
        calls_alone,
        awaited,
        config: renewed.config,
        sources,
        others: renewed.others,
    })
}

// ---- what it comes to

impl Kept {
    /// Whether the roots stay where calls refer to these clusters. Each of them is looked up.
    fn keeps_roots(&self, alloc: Global, references: &[Text]) -> Result<bool, Memory>
        ensures { IfOk result (λ keeps. (r : Resources) (reached : List KeyValue) → IsAssembledOf r reached self.now → (IsTrue keeps ↔ KeepsRoots r self.now.references references.now)) }
    {
        let clusters = &self.config.get().clusters;
        let keeps = keeps_roots(alloc, clusters, self.calls_alone.as_slice(), references)?;
        Ok(keeps)
    }

    /// Whether the roots stay where calls refer to these clusters. Each of them may be looked up, unless they are those for
    /// which this was made.
    pub fn serves(&self, alloc: Global, references: &List<Text>) -> Result<bool, Memory>
        ensures { IfOk result (λ serves. (r : Resources) (reached : List KeyValue) → IsAssembledOf r reached self.now → (IsTrue serves ↔ KeepsRoots r self.now.references references.now)) }
    {
        if references.same(&self.references) {
            return Ok(true);
        }
        let keeps = self.keeps_roots(alloc, references.as_slice())?;
        Ok(keeps)
    }

    /// The least of the keys that are awaited.
    pub fn least(&self) -> Result<Option<Key>, Memory>
        ensures { IfOk result (λ least. least ≡ least_of self.now.awaited.keys) }
    {
        match self.awaited.first() {
            Some(key) => Ok(Some(key.clone()?)),
            None => Ok(None),
        }
    }

    /// The configuration, where no key is awaited.
    pub fn config_if(&self, missing: &Option<Key>) -> Result<Option<Shared<Config>>, Memory>
        ensures { IfOk result (λ config. config ≡ config_if missing.now self.now.config) }
    {
        match missing {
            Some(_) => Ok(None),
            None => Ok(Some(self.config.share()?)),
        }
    }

    /// Takes the marks out where no key is awaited, so that the configuration is handed out. From then on no cluster is marked.
    pub fn take_marks(&mut self, alloc: Global, missing: &Option<Key>) -> Result<Marks, Memory>
        ensures kept { self.new ≡ kept_with self.old self.new.others }
        ensures taken { IfOk result (λ marks. marks ≡ marks_if missing.now self.old.others) }
        ensures left { OnOk result (self.new.others ≡ marks_left missing.now self.old.others) }
    {
        if missing.is_some() {
            return Ok(Marks::none(alloc, 0));
        }
        let unmarked = MarkSet::none(alloc, self.others.len());
        mem::replace(&mut self.others, unmarked).into_marks(alloc)
    }
}
