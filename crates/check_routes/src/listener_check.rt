//! The checks of a Listener (gRFC A27, Envoy's Listener and HttpConnectionManager).
ghost use Rattle.std.specs.Prelude.{◌≡◌, ◌≢◌, [], Some, IfOk};
ghost use Rattle.proto_listener.specs.declared.manager.RawManagerOne.TheVariants.{RouteConfig};
ghost use Rattle.proto_discovery.specs.TypeUrls.{manager_url};
ghost use Rattle.check_steps.specs.Asking.{AsksUntil, TellsOver, ending};
ghost use Rattle.check_routes.specs.ListenerTable.{listener_value, manager_in, named_routes, routes_of};
ghost use Rattle.check_steps.specs.TableSteps.{Tells};
ghost use Rattle.xds_config.specs.Listeners.{IsLawfulFrom, IsLawfulListener};

use crate::host_check::check_routes;
use check_steps::asked::Asked;
use check_steps::check_fault::Fault;
use check_steps::resource_names::required_name;
use check_steps::sources::is_sourced;
use check_steps::table_steps::{demand, read};
use header_match::Patterns;
use proto_discovery::MANAGER_URL;
use proto_listener::{RawListener, RawManager, RawManagerOne, RawRds};
use proto_route::RawRoutes;
use std::alloc::Global;
use xc_base::{Reason, Shared, Text};
use xds_config::{ListenerValue, RoutesFrom};
use xds_name::canonical;

#[tactic(auto, unfolding(proto_discovery::specs::TypeUrls::manager_url))]
fn manager_url() -> &'static str
    ensures { result.now ≡ manager_url }
{
    MANAGER_URL
}

/// Routes that are a resource of their own: their source, and their name.
#[tactic(auto, unfolding(crate::specs::ListenerTable::named_routes))]
fn named_routes(alloc: Global, rds: &RawRds) -> Result<RoutesFrom, Fault>
    ensures value { Tells result (named_routes rds.now) }
    ensures lawful { IfOk result IsLawfulFrom }
{
    demand(is_sourced(rds.config_source), Reason::ConfigSource)?;
    let name = required_name(alloc, &rds.route_config_name)?;
    Ok(RoutesFrom::Named(name))
}

/// Routes that stand in the listener. They may have no name.
#[tactic(auto)]
fn inline_routes<P: Patterns>(
    alloc: Global,
    asked: &mut Asked,
    patterns: &mut P,
    raw: &RawRoutes,
) -> Result<RoutesFrom, Fault>
    ensures value { TellsOver asked.new result (λ refuses. routes_of refuses (Some (RouteConfig raw.now))) }
    ensures asked { AsksUntil asked.old asked.new (P.refused patterns.old) (P.refused patterns.new) (ending result) }
    ensures lawful { IfOk result IsLawfulFrom }
{
    let name = canonical(alloc, raw.name.as_str())?;
    let routes = check_routes(alloc, asked, patterns, name, raw)?;
    let routes = Shared::new(alloc, routes)?;
    Ok(RoutesFrom::Inline(routes))
}

/// Where the routes come from.
fn routes<P: Patterns>(
    alloc: Global,
    asked: &mut Asked,
    patterns: &mut P,
    one: &Option<RawManagerOne>,
) -> Result<RoutesFrom, Fault>
    ensures value { TellsOver asked.new result (λ refuses. routes_of refuses one.now) }
    ensures asked { AsksUntil asked.old asked.new (P.refused patterns.old) (P.refused patterns.new) (ending result) }
    ensures lawful { IfOk result IsLawfulFrom }
{
    match one {
        None => Err(Fault::because(Reason::NoRoutes)),
        Some(RawManagerOne::Rds(rds)) => named_routes(alloc, rds),
        Some(RawManagerOne::RouteConfig(raw)) => inline_routes(alloc, asked, patterns, raw),
    }
}

/// The connection manager of a listener: it is there, has the manager's type, and is read.
#[tactic(auto, unfolding(crate::specs::ListenerTable::manager_in))]
fn manager(alloc: Global, raw: &RawListener) -> Result<RawManager, Fault>
    ensures { Tells result (manager_in raw.now) }
{
    let Some(api) = &raw.api_listener else {
        return Err(Fault::because(Reason::NoRoutes));
    };
    let Some(any) = &api.api_listener else {
        return Err(Fault::because(Reason::NoRoutes));
    };
    demand(any.type_url.as_str() == manager_url(), Reason::WrongType)?;
    read::<RawManager>(alloc, any.value.as_slice())
}

/// The value of a Listener under this name, or the first reason against it: its connection manager, and where
/// the routes of that come from.
#[tactic(auto, unfolding(crate::specs::ListenerTable::listener_value))]
pub fn check_listener<P: Patterns>(
    alloc: Global,
    asked: &mut Asked,
    patterns: &mut P,
    name: &Text,
    raw: &RawListener,
) -> Result<ListenerValue, Fault>
    ensures value { TellsOver asked.new result (λ refuses. listener_value refuses name.now raw.now) }
    ensures asked { AsksUntil asked.old asked.new (P.refused patterns.old) (P.refused patterns.new) (ending result) }
    ensures lawful { name.now ≢ [] → IfOk result IsLawfulListener }
{
    let manager = manager(alloc, raw)?;
    let routes = routes(alloc, asked, patterns, &manager.one)?;
    let name = name.clone()?;
    Ok(ListenerValue { name, routes })
}
