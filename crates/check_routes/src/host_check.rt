//! The checks of virtual hosts, and of a RouteConfiguration (gRFC A28, Envoy's route API).
ghost use Rattle.std.specs.Prelude.{◌≡◌, ◌==◌, ◌++◌, All, count_by, length, reverse, if◌then◌else◌, IfOk, OnOk};
ghost use Rattle.std.specs.List.{flat_map, list_all};
ghost use Rattle.check_steps.specs.Asking.{AsksUntil, TellsOver, ending};
ghost use Rattle.check_routes.specs.RouteTable.{different, host_of, host_with, names_few, route_value};
ghost use Rattle.check_steps.specs.Sets.{Gains, has};
ghost use Rattle.check_steps.specs.TableSteps.{each};
ghost use Rattle.xds_config.specs.RouteValues.{IsLawfulHost, IsLawfulRouteValue, action_clusters, is_domain};

use crate::route_check::routes;
use check_steps::asked::Asked;
use check_steps::check_fault::Fault;
use check_steps::table_steps::{demand, few};
use header_match::Patterns;
use proto_route::{RawRoutes, RawVirtualHost};
use std::alloc::Global;
use std::collections::BTreeSet;
use xc_base::{List, Memory, Reason, Text};
use xds_config::{Action, Host, Route, RouteValue, Routes};

/// A virtual host names at most so many different clusters.
const MOST_CLUSTERS: usize = 1024;

// ---- domains

fn stars(domain: &[u8]) -> usize
    ensures { result ≡ count_by (λ b. b == 42) domain.now }
{
    domain.iter().filter(|b| **b == b'*').count()
}

/// Whether a domain isn't empty and has at most one `*`, which stands first or last.
fn is_domain(domain: &Text) -> bool
    ensures { result ≡ is_domain domain.now }
{
    let bytes = domain.as_str().as_bytes();
    if bytes.is_empty() {
        return false;
    }
    match stars(bytes) {
        0 => true,
        1 => bytes[0] == b'*' || bytes[bytes.len() - 1] == b'*',
        _ => false,
    }
}

fn are_domains(domains: &[Text]) -> bool
    ensures { result ≡ list_all is_domain domains.now }
{
    domains.iter().all(|domain| is_domain(domain))
}

// ---- the clusters that a virtual host names

/// Adds the clusters that an action names.
fn add_named(names: &mut Vec<Text>, action: &Action) -> Result<(), Memory>
    ensures { OnOk result (names.new.items ≡ names.old.items ++ action_clusters action.now) }
{
    match action {
        Action::To(clusters) => {
            for weighted in clusters.as_slice() {
                names.push(weighted.cluster.clone()?)?;
            }
            Ok(())
        }
        Action::Nothing => Ok(()),
    }
}

/// The clusters that routes name, those of weight 0 among them.
fn named_clusters(alloc: Global, routes: &[Route]) -> Result<Vec<Text>, Memory>
    ensures { IfOk result (λ names. names.items ≡ flat_map (λ r. action_clusters r.action) routes.now) }
{
    let mut names = Vec::new(alloc);
    for route in routes {
        add_named(&mut names, &route.action)?;
    }
    Ok(names)
}

/// Adds a name, and gives how many names that is more.
fn see(seen: &mut BTreeSet<Text>, name: Text) -> Result<usize, Memory>
    ensures count { IfOk result (λ more. more ≡ (if has seen.old name then 0 else 1)) }
    ensures seen { OnOk result (Gains seen.old seen.new name) }
{
    if seen.insert(name)? { Ok(1) } else { Ok(0) }
}

/// How many different names there are, counted from the last one on.
fn count_different(alloc: Global, names: &[Text]) -> Result<usize, Memory>
    ensures { IfOk result (λ count. count ≡ length (different (reverse names.now))) }
{
    let mut seen = BTreeSet::new(alloc);
    let mut count = 0usize;
    for name in names {
        count += see(&mut seen, name.clone()?)?;
    }
    Ok(count)
}

/// Whether a virtual host names at most 1,024 different clusters.
fn names_few(alloc: Global, host: &Host) -> Result<bool, Memory>
    ensures { IfOk result (λ few. few ≡ names_few host.now) }
{
    let names = named_clusters(alloc, host.routes.as_slice())?;
    let count = count_different(alloc, &names)?;
    Ok(count <= MOST_CLUSTERS)
}

// ---- virtual hosts

/// A copy of each text, which shares its bytes.
fn copies_of(alloc: Global, texts: &[Text]) -> Result<List<Text>, Memory>
    ensures { IfOk result (λ copy. copy ≡ texts.now) }
{
    let mut copy = List::new(alloc);
    for text in texts {
        copy.push(text.clone()?)?;
    }
    Ok(copy)
}

/// A virtual host with these routes.
fn host_with(alloc: Global, raw: &RawVirtualHost, routes: Routes) -> Result<Host, Memory>
    ensures { IfOk result (λ host. host ≡ host_with raw.now routes) }
{
    let name = raw.name.clone()?;
    let domains = copies_of(alloc, raw.domains.as_slice())?;
    Ok(Host {
        name,
        domains,
        routes,
    })
}

/// A virtual host: its domains, its routes one after another, and the clusters that it names.
#[tactic(auto, unfolding(crate::specs::RouteTable::host_of))]
fn host<P: Patterns>(
    alloc: Global,
    asked: &mut Asked,
    patterns: &mut P,
    raw: &RawVirtualHost,
) -> Result<Host, Fault>
    ensures value { TellsOver asked.new result (λ refuses. host_of refuses raw.now) }
    ensures asked { AsksUntil asked.old asked.new (P.refused patterns.old) (P.refused patterns.new) (ending result) }
    ensures lawful { IfOk result IsLawfulHost }
{
    demand(are_domains(raw.domains.as_slice()), Reason::Domain)?;
    let routes = routes(alloc, asked, patterns, raw.routes.as_slice())?;
    let host = host_with(alloc, raw, routes)?;
    demand(names_few(alloc, &host)?, Reason::ManyClusters)?;
    Ok(host)
}

/// The virtual hosts, one after another.
fn hosts<P: Patterns>(
    alloc: Global,
    asked: &mut Asked,
    patterns: &mut P,
    raws: &[RawVirtualHost],
) -> Result<List<Host>, Fault>
    ensures value { TellsOver asked.new result (λ refuses. each (host_of refuses) raws.now) }
    ensures asked { AsksUntil asked.old asked.new (P.refused patterns.old) (P.refused patterns.new) (ending result) }
    ensures lawful { IfOk result (All IsLawfulHost) }
    ensures len { IfOk result (λ hosts. length hosts ≡ length raws.now) }
{
    let mut hosts = List::new(alloc);
    for raw in raws {
        let host = host(alloc, asked, patterns, raw)?;
        hosts.push(host)?;
    }
    Ok(hosts)
}

/// The value of a RouteConfiguration under this name, or the first reason against it.
#[tactic(auto, unfolding(crate::specs::RouteTable::route_value))]
pub fn check_routes<P: Patterns>(
    alloc: Global,
    asked: &mut Asked,
    patterns: &mut P,
    name: Text,
    raw: &RawRoutes,
) -> Result<RouteValue, Fault>
    ensures value { TellsOver asked.new result (λ refuses. route_value refuses name raw.now) }
    ensures asked { AsksUntil asked.old asked.new (P.refused patterns.old) (P.refused patterns.new) (ending result) }
    ensures name { IfOk result (λ v. v.name ≡ name) }
    ensures lawful { IfOk result IsLawfulRouteValue }
{
    few(raw.virtual_hosts.len())?;
    let hosts = hosts(alloc, asked, patterns, raw.virtual_hosts.as_slice())?;
    Ok(RouteValue { name, hosts })
}
