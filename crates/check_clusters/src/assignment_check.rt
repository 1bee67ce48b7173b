//! The checks of a ClusterLoadAssignment (gRFC A27, A56, Envoy's endpoint API).
ghost use Rattle.std.specs.Prelude.{◌≢◌, [], IfOk};
ghost use Rattle.xds_config.specs.Endpoints.{IsLawfulEndpoints};
ghost use Rattle.check_clusters.specs.Assignments.{assignment_value, drop_rule_of, drops_in};
ghost use Rattle.check_steps.specs.TableSteps.{Tells, each};

use crate::endpoints::weighed_localities;
use crate::localities::{by_priority, stand_soundly};
use check_steps::check_fault::Fault;
use check_steps::fractions::part;
use check_steps::table_steps::few;
use proto_cluster::{RawAssignment, RawDrop, RawPolicy};
use std::alloc::Global;
use weight_pick::DropRule;
use xc_base::{List, Text};
use xds_config::EndpointValue;

/// A rule by which calls are dropped.
#[tactic(auto, unfolding(crate::specs::Assignments::drop_rule_of))]
fn drop_rule(raw: &RawDrop) -> Result<DropRule, Fault>
    ensures { Tells result (drop_rule_of raw.now) }
{
    let fraction = part(raw.drop_percentage)?;
    let category = raw.category.clone()?;
    Ok(DropRule { category, fraction })
}

/// The rules by which calls are dropped, in their order.
fn drop_rules(alloc: Global, raws: &[RawDrop]) -> Result<List<DropRule>, Fault>
    ensures { Tells result (each drop_rule_of raws.now) }
{
    let mut rules = List::new(alloc);
    for raw in raws {
        let rule = drop_rule(raw)?;
        rules.push(rule)?;
    }
    Ok(rules)
}

/// The drop rules of a policy; one that is absent has none.
fn drops(alloc: Global, policy: &Option<RawPolicy>) -> Result<List<DropRule>, Fault>
    ensures { Tells result (each drop_rule_of (drops_in policy.now)) }
{
    match policy {
        None => Ok(List::new(alloc)),
        Some(policy) => drop_rules(alloc, policy.drop_overloads.as_slice()),
    }
}

/// The value of a ClusterLoadAssignment of this canonical name, or the first reason against it: all drop rules, all
/// addresses, then localities that stand twice, weights, and the gap between priorities.
#[tactic(auto, unfolding(crate::specs::Assignments::assignment_value))]
pub fn check_assignment(
    alloc: Global,
    name: &Text,
    raw: &RawAssignment,
) -> Result<EndpointValue, Fault>
    ensures value { Tells result (assignment_value name.now raw.now) }
    ensures lawful { name.now ≢ [] → IfOk result IsLawfulEndpoints }
{
    let drops = drops(alloc, &raw.policy)?;
    few(drops.len())?;
    let found = weighed_localities(alloc, raw.endpoints.as_slice())?;
    few(found.len())?;
    let localities = by_priority(found)?;
    stand_soundly(alloc, localities.as_slice())?;
    let name = name.clone()?;
    Ok(EndpointValue {
        name,
        localities,
        drops,
    })
}
