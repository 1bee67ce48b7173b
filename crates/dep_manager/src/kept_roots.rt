//! Roots that stay while calls refer to other clusters than before (gRFC A74).
ghost use Rattle.std.specs.Prelude.{◌≡◌, ◌&&◌, ◌∷◌, ◌++◌, [], filter, map, not, IfOk, OnOk, if◌then◌else◌};
ghost use Rattle.std.specs.List.{list_all};
ghost use Rattle.config_assembly.specs.Front.{names_of};
ghost use Rattle.dep_manager.specs.CallsAlone.{AreCallsAlone, is_among};

use config_assembly::front::put_front;
use config_assembly::ordered::put_names;
use std::alloc::Global;
use std::collections::BTreeSet;
use xc_base::{List, Memory, Reason, Text};
use xds_config::{Clusters, Front};

/// Puts a name into a list, where it isn't in a set.
fn put_outside(outside: &mut List<Text>, set: &BTreeSet<Text>, name: &Text) -> Result<(), Memory>
    ensures { OnOk result (outside.new ≡ (if not (is_among set.now.keys name.now) then outside.old ++ name.now ∷ [] else outside.old)) }
{
    if set.contains(name) {
        return Ok(());
    }
    outside.push(name.clone()?)?;
    Ok(())
}

/// Those of these names that aren't in a set.
fn names_outside(alloc: Global, set: &BTreeSet<Text>, names: &[Text]) -> Result<List<Text>, Memory>
    ensures { IfOk result (λ outside. outside ≡ filter (λ name. not (is_among set.now.keys name)) names.now) }
{
    let mut outside = List::new(alloc);
    for name in names {
        put_outside(&mut outside, set, name)?;
    }
    Ok(outside)
}

/// Those of the clusters that calls refer to that the host of a front doesn't name. Where calls refer to none, the front isn't
/// looked at.
pub fn calls_alone(
    alloc: Global,
    front: &Option<Result<Front, Reason>>,
    references: &[Text],
) -> Result<List<Text>, Memory>
    ensures { IfOk result (AreCallsAlone (names_of front.now) references.now) }
{
    if references.is_empty() {
        return Ok(List::new(alloc));
    }
    let mut named = BTreeSet::new(alloc);
    put_front(&mut named, front)?;
    let alone = names_outside(alloc, &named, references)?;
    Ok(alone)
}

/// Whether there is a cluster of this name.
fn has_cluster(clusters: &Clusters, name: &Text) -> bool
    ensures { result ≡ is_among (map (λ c. c.name) clusters.now) name.now }
{
    clusters.find(name).is_some()
}

/// Whether there is a cluster of each of these names.
fn has_all(clusters: &Clusters, names: &[Text]) -> bool
    ensures { result ≡ list_all (is_among (map (λ c. c.name) clusters.now)) names.now }
{
    names.iter().all(|name| has_cluster(clusters, name))
}

/// Whether each of these names is in a set.
fn are_in(set: &BTreeSet<Text>, names: &[Text]) -> bool
    ensures { result ≡ list_all (is_among set.now.keys) names.now }
{
    names.iter().all(|name| set.contains(name))
}

/// Whether each of these names is one of the others. Where there are none of them, the others aren't looked at.
fn are_among(alloc: Global, names: &[Text], others: &[Text]) -> Result<bool, Memory>
    ensures { IfOk result (λ are. are ≡ list_all (is_among others.now) names.now) }
{
    if names.is_empty() {
        return Ok(true);
    }
    let mut set = BTreeSet::new(alloc);
    put_names(&mut set, others)?;
    Ok(are_in(&set, names))
}

/// Whether the roots stay where calls refer to these clusters, by the clusters that are configured and those of them that are so
/// for calls alone: each one that calls refer to is configured, and each one that is so for calls alone is still referred to.
pub fn keeps_roots(
    alloc: Global,
    clusters: &Clusters,
    alone: &[Text],
    references: &[Text],
) -> Result<bool, Memory>
    ensures { IfOk result (λ keeps. keeps ≡ (list_all (is_among (map (λ c. c.name) clusters.now)) references.now && list_all (is_among references.now) alone.now)) }
{
    if !has_all(clusters, references) {
        return Ok(false);
    }
    are_among(alloc, alone, references)
}
