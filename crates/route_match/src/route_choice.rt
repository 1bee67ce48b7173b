//! Which route a call takes.
ghost use Rattle.std.specs.Prelude.{◌≡◌, ◌≤◌, ◌<◌, ◌+◌, ◌*◌, ◌/◌, ◌^◌, false, length, option_copied, slice_get, sum, All, AllPairs, IfOk, OnOk};
ghost use Rattle.std.specs.List.{list_all};
ghost use Rattle.xds_config.specs.RouteValues.{IsLawfulRoute, IsLawfulAction, IsLawfulSplit, weights_of};
ghost use Rattle.xds_config.specs.Configs.{IsLawfulFront};
ghost use Rattle.xds_config.specs.PathLengths.{length_test};
ghost use Rattle.weight_pick.specs.Weights.{place_by_weight};
ghost use Rattle.header_match.specs.Headers.{header_met};
ghost use Rattle.route_match.specs.Routes.{path_met, share_met, route_met, led, routed, route, tried, routes_tried};

use crate::answer::RouteAnswer;
use header_match::texts::{begins_with, is_same};
use header_match::{HeaderRule, header_met};
use std::alloc::Global;
use std::sync::ledger::Ledger;
use weight_pick::{Fraction, fraction_met};
use xc_base::{Call, Memory, Reason, Steps, draw};
use xds_config::{Action, Front, Host, LengthTest, PathTest, Route, Routes, Weighted};

/// Where a call goes (gRFC A28): by the route of least place among those of the front's virtual host whose
/// path, headers and fraction hold. It counts one step for each route that is tried, and takes memory
/// only where several values of one header are joined or a pattern runs.
pub fn choose_route<L: Ledger>(
    alloc: Global,
    front: &Result<Front, Reason>,
    call: &Call,
    steps: &mut Steps<L>,
) -> Result<RouteAnswer, Memory>
    requires lawful { IfOk front.now IsLawfulFront }
    ensures answer { IfOk result (λ answer. answer ≡ route front.now call.now) }
    ensures cost { OnOk result (steps.new ≡ steps.old + routes_tried front.now call.now) }
    ensures later { steps.old ≤ steps.new }
{
    match front {
        Ok(front) => match host_of(front) {
            Some(host) => take_route(alloc, &host.routes, call, steps),
            None => Ok(RouteAnswer::NoRoute),
        },
        Err(reason) => Ok(RouteAnswer::NoFront { reason: *reason }),
    }
}

/// A front's virtual host.
pub(crate) fn host_of(front: &Front) -> Option<&Host>
    ensures { option_copied result ≡ slice_get front.now.routes.hosts front.now.host }
{
    front.routes.get().hosts.as_slice().get(front.host as usize)
}

/// Where the first of the routes that is for the call leads it. Of a route that the path's length rules out no more is read than
/// what its test says of the length.
fn take_route<L: Ledger>(
    alloc: Global,
    routes: &Routes,
    call: &Call,
    steps: &mut Steps<L>,
) -> Result<RouteAnswer, Memory>
    requires lawful { All IsLawfulRoute routes.now }
    requires rising { AllPairs (λ a b. a.place < b.place) routes.now }
    ensures answer { IfOk result (λ answer. answer ≡ routed routes.now call.now) }
    ensures cost { OnOk result (steps.new ≡ steps.old + tried routes.now call.now) }
    ensures later { steps.old ≤ steps.new }
{
    let path = call.path.as_str();
    let tests = routes.length_tests();
    let list = routes.as_slice();
    for at in 0..list.len() {
        steps.tick();
        let route = &list[at];
        if is_for(alloc, path, call, tests[at], route)? {
            return Ok(destination(call.word, route));
        }
    }
    Ok(RouteAnswer::NoRoute)
}

/// Whether a route is for a call of this path, of which its test says this of the length.
#[inline(always)]
fn is_for(
    alloc: Global,
    path: &str,
    call: &Call,
    test: LengthTest,
    route: &Route,
) -> Result<bool, Memory>
    requires own { path.now ≡ call.now.path }
    requires small { route.now.place < 2 ^ 31 }
    requires test { test ≡ length_test route.now.path }
    ensures { IfOk result (λ met. met ≡ route_met call.now route.now) }
{
    if !test.is_met(path.len()) {
        return Ok(false);
    }
    route_met(alloc, path, call, route)
}

/// Whether a route is for a call of this path: its path, all its headers and its fraction hold. Few paths have a length that fits a
/// test, so that its code stands apart from the walk over the routes.
#[inline(never)]
fn route_met(alloc: Global, path: &str, call: &Call, route: &Route) -> Result<bool, Memory>
    requires own { path.now ≡ call.now.path }
    requires small { route.now.place < 2 ^ 31 }
    ensures { IfOk result (λ met. met ≡ route_met call.now route.now) }
{
    if !path_met(&route.path, path)? || !headers_met(alloc, route.headers.as_slice(), call)? {
        return Ok(false);
    }
    Ok(share_met(route.fraction, draw(call.word, 2 * route.place)))
}

/// Whether a path meets a test.
fn path_met(test: &PathTest, path: &str) -> Result<bool, Memory>
    ensures { IfOk result (λ met. met ≡ path_met test.now path.now) }
{
    let bytes = path.as_bytes();
    match test {
        PathTest::Prefix { text, case } => Ok(begins_with(bytes, text.as_str().as_bytes(), !*case)),
        PathTest::Whole { text, case } => Ok(is_same(bytes, text.as_str().as_bytes(), !*case)),
        PathTest::Pattern(pattern) => pattern.meets(path),
    }
}

/// Whether a call meets all header rules of a route.
fn headers_met(alloc: Global, rules: &[HeaderRule], call: &Call) -> Result<bool, Memory>
    ensures { IfOk result (λ met. met ≡ list_all (λ rule. header_met rule call.now) rules.now) }
{
    for rule in rules {
        if !header_met(alloc, rule, call)? {
            return Ok(false);
        }
    }
    Ok(true)
}

/// Whether a draw is among those that a route takes; a route without a fraction takes all.
fn share_met(fraction: Option<Fraction>, draw: u32) -> bool
    ensures { result ≡ share_met fraction draw }
{
    match fraction {
        Some(fraction) => fraction_met(fraction, draw),
        None => true,
    }
}

/// Where a route leads a call of this word: to the cluster that a draw chooses by weight, or nowhere.
fn destination(word: u64, route: &Route) -> RouteAnswer
    requires { IsLawfulRoute route.now }
    ensures { result ≡ led word route.now.place route.now.action }
{
    match &route.action {
        Action::To(clusters) => {
            let choice = choice(clusters.as_slice(), draw(word, 2 * route.place + 1));
            RouteAnswer::To {
                route: route.place,
                choice,
            }
        }
        Action::Nothing => RouteAnswer::NoAction { route: route.place },
    }
}

/// The place in the list of clusters, from 0, that a draw chooses by weight.
fn choice(clusters: &[Weighted], draw: u32) -> u32
    requires { IsLawfulSplit clusters.now }
    ensures { result ≡ place_by_weight (weights_of clusters.now) draw }
{
    let target = target_of(clusters, draw);
    let mut sum = 0u64;
    for (place, cluster) in clusters.iter().enumerate() {
        sum += u64::from(cluster.weight);
        if target < sum {
            return place as u32;
        }
    }
    0
}

/// A draw, brought from 32 bits to a number below the sum of the weights.
fn target_of(clusters: &[Weighted], draw: u32) -> u64
    requires { IsLawfulSplit clusters.now }
    ensures { result ≡ draw * sum (weights_of clusters.now) / 2 ^ 32 }
{
    u64::from(draw) * total_weight(clusters) >> 32
}

/// The sum of the weights of clusters.
fn total_weight(clusters: &[Weighted]) -> u64
    requires { length clusters.now < 2 ^ 31 }
    ensures { result ≡ sum (weights_of clusters.now) }
{
    clusters.iter().map(|c| u64::from(c.weight)).sum()
}
