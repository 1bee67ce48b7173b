//! The checks of a route (gRFC A28, Envoy's route API).
ghost use Rattle.std.specs.Prelude.{◌≡◌, ◌≢◌, ◌<◌, ◌^◌, [], ◌++◌, length, All, Some, IfOk, IfSome, OnOk};
ghost use Rattle.check_steps.specs.Asking.{AsksUntil, TellsOver, ending};
ghost use Rattle.check_routes.specs.RouteTable.{action_of, can_be_chosen, forward, has_query, is_left_out, kept_of, leads_elsewhere, names_none, path_test, route_of, routes_from, split_of, weighted_of};
ghost use Rattle.proto_route.specs.declared.route_action.RawRouteActionOne.TheVariants.{Cluster};
ghost use Rattle.check_routes.specs.LawfulRoutes.{AreLawfulRoutes, listed};
ghost use Rattle.check_steps.specs.TableSteps.{Tells, each};
ghost use Rattle.xds_config.specs.RouteValues.{IsLawfulAction, IsLawfulRoute};

use crate::header_check::header_rules;
use check_steps::asked::Asked;
use check_steps::check_fault::Fault;
use check_steps::fractions::runtime_part;
use check_steps::resource_names::required_name;
use check_steps::table_steps::{demand, few};
use header_match::Patterns;
use proto_route::{
    RawClusterWeight, RawRoute, RawRouteAction, RawRouteActionOne, RawRouteMatch, RawRouteMatchOne,
};
use std::alloc::Global;
use xc_base::{List, Memory, Reason, Text};
use xds_config::{Action, PathTest, Route, Routes, Weighted};

// ---- routes that are left out, unchecked

/// Whether a route is for calls with certain query parameters.
fn has_query(raw: &Option<RawRouteMatch>) -> bool
    ensures { result ≡ has_query raw.now }
{
    match raw {
        None => false,
        Some(raw) => !raw.query_parameters.is_empty(),
    }
}

/// Whether an action names neither a cluster nor weighted clusters.
fn names_none(one: &Option<RawRouteActionOne>) -> bool
    ensures { result ≡ names_none one.now }
{
    match one {
        None | Some(RawRouteActionOne::ClusterHeader(_)) => true,
        Some(RawRouteActionOne::Cluster(_)) | Some(RawRouteActionOne::WeightedClusters(_)) => false,
    }
}

/// Whether a route has an action that names neither a cluster nor weighted clusters.
fn leads_elsewhere(raw: &Option<RawRouteAction>) -> bool
    ensures { result ≡ leads_elsewhere raw.now }
{
    match raw {
        None => false,
        Some(raw) => names_none(&raw.one),
    }
}

/// Whether a route is left out, unchecked.
fn is_left_out(raw: &RawRoute) -> bool
    ensures { result ≡ is_left_out raw.now }
{
    has_query(&raw.match_) || leads_elsewhere(&raw.route)
}

// ---- the steps of a route

/// The test of a path. `case` says whether its letters are compared with case.
fn path_test<P: Patterns>(
    asked: &mut Asked,
    patterns: &mut P,
    case: bool,
    one: &Option<RawRouteMatchOne>,
) -> Result<PathTest, Fault>
    ensures value { TellsOver asked.new result (λ refuses. path_test refuses case one.now) }
    ensures asked { AsksUntil asked.old asked.new (P.refused patterns.old) (P.refused patterns.new) (ending result) }
{
    match one {
        None => Err(Fault::because(Reason::NoPath)),
        Some(RawRouteMatchOne::Prefix(text)) => {
            let text = text.clone()?;
            Ok(PathTest::Prefix { text, case })
        }
        Some(RawRouteMatchOne::Path(text)) => {
            let text = text.clone()?;
            Ok(PathTest::Whole { text, case })
        }
        Some(RawRouteMatchOne::SafeRegex(pattern)) => {
            let built = asked.pattern(patterns, &pattern.regex)?;
            Ok(PathTest::Pattern(built))
        }
    }
}

/// A cluster of a split. Its weight is 0 where it is absent.
#[tactic(auto, unfolding(crate::specs::RouteTable::weighted_of))]
fn weighted_cluster(alloc: Global, raw: &RawClusterWeight) -> Result<Weighted, Fault>
    ensures value { Tells result (weighted_of raw.now) }
    ensures named { IfOk result (λ w. w.cluster ≢ []) }
{
    let cluster = required_name(alloc, &raw.name)?;
    Ok(Weighted {
        cluster,
        weight: raw.weight.unwrap_or(0),
    })
}

/// The clusters of a split, one after another.
fn weighted_clusters(alloc: Global, raws: &[RawClusterWeight]) -> Result<List<Weighted>, Fault>
    ensures value { Tells result (each weighted_of raws.now) }
    ensures named { IfOk result (λ ws. All (λ w. w.cluster ≢ []) ws) }
    ensures few { IfOk result (λ ws. length ws ≡ length raws.now) }
{
    let mut clusters = List::new(alloc);
    for raw in raws {
        let weighted = weighted_cluster(alloc, raw)?;
        clusters.push(weighted)?;
    }
    Ok(clusters)
}

/// Whether the weights of clusters sum to 1 to 4,294,967,295.
fn can_be_chosen(clusters: &[Weighted]) -> bool
    ensures { result ≡ can_be_chosen clusters.now }
{
    let mut sum = 0u32;
    for weighted in clusters {
        match sum.checked_add(weighted.weight) {
            Some(more) => sum = more,
            None => return false,
        }
    }
    sum > 0
}

/// A split over clusters by weight.
#[tactic(auto, unfolding(crate::specs::RouteTable::split_of))]
fn split(alloc: Global, raws: &[RawClusterWeight]) -> Result<Action, Fault>
    ensures value { Tells result (split_of raws.now) }
    ensures lawful { IfOk result IsLawfulAction }
{
    few(raws.len())?;
    let clusters = weighted_clusters(alloc, raws)?;
    demand(can_be_chosen(clusters.as_slice()), Reason::Weights)?;
    Ok(Action::To(clusters))
}

/// The whole of the calls to one cluster.
fn single(alloc: Global, name: &Text) -> Result<Action, Fault>
    ensures value { Tells result (forward (Some (Cluster name.now))) }
    ensures lawful { IfOk result IsLawfulAction }
{
    let cluster = required_name(alloc, name)?;
    let mut clusters = List::new(alloc);
    clusters.push(Weighted { cluster, weight: 1 })?;
    Ok(Action::To(clusters))
}

/// Where an action leads.
fn forward(alloc: Global, one: &Option<RawRouteActionOne>) -> Result<Action, Fault>
    ensures value { Tells result (forward one.now) }
    ensures lawful { IfOk result IsLawfulAction }
{
    match one {
        None | Some(RawRouteActionOne::ClusterHeader(_)) => Ok(Action::Nothing),
        Some(RawRouteActionOne::Cluster(name)) => single(alloc, name),
        Some(RawRouteActionOne::WeightedClusters(clusters)) => {
            split(alloc, clusters.clusters.as_slice())
        }
    }
}

/// The action of a route: none where it has no action to forward.
fn action(alloc: Global, raw: &Option<RawRouteAction>) -> Result<Action, Fault>
    ensures value { Tells result (action_of raw.now) }
    ensures lawful { IfOk result IsLawfulAction }
{
    match raw {
        None => Ok(Action::Nothing),
        Some(raw) => forward(alloc, &raw.one),
    }
}

/// A route of this place that isn't left out: its path, its headers, its fraction, and its action.
#[tactic(auto, unfolding(crate::specs::RouteTable::route_of))]
fn route<P: Patterns>(
    alloc: Global,
    asked: &mut Asked,
    patterns: &mut P,
    place: u32,
    raw: &RawRoute,
) -> Result<Route, Fault>
    requires { place < 2 ^ 31 }
    ensures value { TellsOver asked.new result (λ refuses. route_of refuses place raw.now) }
    ensures asked { AsksUntil asked.old asked.new (P.refused patterns.old) (P.refused patterns.new) (ending result) }
    ensures lawful { IfOk result IsLawfulRoute }
    ensures place { IfOk result (λ r. r.place ≡ place) }
{
    let Some(test) = &raw.match_ else {
        return Err(Fault::because(Reason::NoPath));
    };
    let path = path_test(
        asked,
        patterns,
        test.case_sensitive.unwrap_or(true),
        &test.one,
    )?;
    let headers = header_rules(alloc, asked, patterns, test.headers.as_slice())?;
    let fraction = runtime_part(test.runtime_fraction)?;
    let action = action(alloc, &raw.route)?;
    Ok(Route {
        place,
        path,
        headers,
        fraction,
        action,
    })
}

/// The route of this place, if it isn't left out.
#[tactic(auto, unfolding(crate::specs::RouteTable::kept_of))]
fn kept_route<P: Patterns>(
    alloc: Global,
    asked: &mut Asked,
    patterns: &mut P,
    place: u32,
    raw: &RawRoute,
) -> Result<Option<Route>, Fault>
    requires { place < 2 ^ 31 }
    ensures value { TellsOver asked.new result (λ refuses. kept_of refuses place raw.now) }
    ensures asked { AsksUntil asked.old asked.new (P.refused patterns.old) (P.refused patterns.new) (ending result) }
    ensures lawful { IfOk result (λ kept. IfSome kept IsLawfulRoute) }
    ensures place { IfOk result (λ kept. IfSome kept (λ r. r.place ≡ place)) }
{
    if is_left_out(raw) {
        return Ok(None);
    }
    let route = route(alloc, asked, patterns, place, raw)?;
    Ok(Some(route))
}

/// Adds the route, if there is one.
fn add(routes: &mut List<Route>, route: Option<Route>) -> Result<(), Memory>
    ensures { OnOk result (routes.new ≡ routes.old ++ listed route) }
{
    if let Some(route) = route {
        routes.push(route)?;
    }
    Ok(())
}

/// The routes that aren't left out, one after another.
pub fn routes<P: Patterns>(
    alloc: Global,
    asked: &mut Asked,
    patterns: &mut P,
    raws: &[RawRoute],
) -> Result<Routes, Fault>
    ensures value { TellsOver asked.new result (λ refuses. routes_from refuses 0 raws.now) }
    ensures asked { AsksUntil asked.old asked.new (P.refused patterns.old) (P.refused patterns.new) (ending result) }
    ensures lawful { IfOk result AreLawfulRoutes }
{
    few(raws.len())?;
    let mut routes = List::new(alloc);
    for place in 0..raws.len() {
        let kept = kept_route(alloc, asked, patterns, place as u32, &raws[place])?;
        add(&mut routes, kept)?;
    }
    let routes = Routes::of(alloc, routes)?;
    Ok(routes)
}
