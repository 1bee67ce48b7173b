//! The front: the listener, its routes, and the virtual host that is chosen (gRFC A27, A28, A74).
ghost use Rattle.std.specs.Prelude.{◌≡◌, IfOk, IfSome, None, OnOk};
ghost use Rattle.xc_base.specs.declared.names.Kind.TheVariants.{Listener as ListenerKind};
ghost use Rattle.xds_config.specs.Configs.{IsLawfulFront};
ghost use Rattle.xds_config.specs.Listeners.{IsLawfulFrom};
ghost use Rattle.xds_config.specs.RouteValues.{IsLawfulRouteValue, action_clusters, host_clusters};
ghost use Rattle.config_assembly.specs.Front.{IsFrontAwaited, IsRouteAwaited, front, front_from, front_of_routes, named_in, names_of};
ghost use Rattle.config_assembly.specs.Orders.{name_cmp, put_in};
ghost use Rattle.config_assembly.specs.DepsViews.{seen};

use crate::ordered::put_name;
use crate::sight::Sight;
use route_match::choose_host;
use std::collections::BTreeSet;
use std::sync::ledger::Ledger;
use xc_base::{Kind, Memory, Reason, Shared, Steps, Text};
use xds_cache::Fate;
use xds_config::{Action, Front, Host, RouteValue, RoutesFrom, Value};

/// The front of these routes, for the channel's host text.
fn front_of_routes(
    sight: Sight<'_>,
    listener: &Text,
    routes: &Shared<RouteValue>,
) -> Result<Result<Front, Reason>, Memory>
    requires { IsLawfulRouteValue routes.now }
    ensures front { IfOk result (λ found. found ≡ front_of_routes (seen sight.entry) listener.now routes.now) }
    ensures lawful { IfOk result (λ found. IfOk found IsLawfulFront) }
{
    match choose_host(&routes.get().hosts, &sight.target.host) {
        None => Ok(Err(Reason::NoHost)),
        Some(host) => Ok(Ok(Front {
            listener: listener.clone()?,
            routes: routes.share()?,
            host,
        })),
    }
}

/// The front of the routes that a listener has or names.
fn front_from<L: Ledger>(
    sight: Sight<'_>,
    listener: &Text,
    routes: &RoutesFrom,
    steps: &mut Steps<L>,
) -> Result<Option<Result<Front, Reason>>, Memory>
    requires { IsLawfulFrom routes.now }
    ensures front { IfOk result (λ found. found ≡ front_from (seen sight.entry) listener.now routes.now) }
    ensures awaited { IfOk result (λ found. found ≡ None → IsRouteAwaited (seen sight.entry) (named_in routes.now)) }
    ensures lawful { IfOk result (λ found. IfSome found (λ front. IfOk front IsLawfulFront)) }
{
    let name = match routes {
        RoutesFrom::Inline(routes) => {
            return Ok(Some(front_of_routes(sight, listener, routes)?));
        }
        RoutesFrom::Named(name) => name,
    };
    match sight.fate(Kind::Route, name, steps)? {
        Fate::Wanted => Ok(None),
        Fate::Value(Value::Route(routes)) => { Ok(Some(front_of_routes(sight, listener, routes)?)) }
        Fate::Value(_) => Ok(None),
        Fate::Invalid(reason) => Ok(Some(Err(*reason))),
        Fate::Absent => Ok(Some(Err(Reason::Absent))),
    }
}

/// The front, or the reason why there is none; nothing while it is awaited.
pub fn front<L: Ledger>(
    sight: Sight<'_>,
    steps: &mut Steps<L>,
) -> Result<Option<Result<Front, Reason>>, Memory>
    requires { (seen sight).target.key.kind ≡ ListenerKind }
    ensures front { IfOk result (λ found. found ≡ front (seen sight.entry)) }
    ensures awaited { IfOk result (λ found. found ≡ None → IsFrontAwaited (seen sight.entry)) }
    ensures lawful { IfOk result (λ found. IfSome found (λ front. IfOk front IsLawfulFront)) }
{
    match sight.listener(steps) {
        Fate::Wanted => Ok(None),
        Fate::Value(Value::Listener(listener)) => {
            let listener = listener.get();
            front_from(sight, &listener.name, &listener.routes, steps)
        }
        Fate::Value(_) => Ok(None),
        Fate::Invalid(reason) => Ok(Some(Err(*reason))),
        Fate::Absent => Ok(Some(Err(Reason::Absent))),
    }
}

/// Puts the clusters that an action names into a set.
fn put_action(names: &mut BTreeSet<Text>, action: &Action) -> Result<(), Memory>
    ensures { OnOk result (names.new.keys ≡ put_in name_cmp names.old.keys (action_clusters action.now)) }
{
    let Action::To(clusters) = action else {
        return Ok(());
    };
    for weighted in clusters.as_slice() {
        put_name(names, &weighted.cluster)?;
    }
    Ok(())
}

/// Puts the clusters that the routes of a virtual host name into a set.
fn put_host(names: &mut BTreeSet<Text>, host: &Host) -> Result<(), Memory>
    ensures { OnOk result (names.new.keys ≡ put_in name_cmp names.old.keys (host_clusters host.now)) }
{
    for route in host.routes.as_slice() {
        put_action(names, &route.action)?;
    }
    Ok(())
}

/// Puts the clusters that the host of a front names into a set, where there is a front.
pub fn put_front(
    names: &mut BTreeSet<Text>,
    found: &Option<Result<Front, Reason>>,
) -> Result<(), Memory>
    ensures { OnOk result (names.new.keys ≡ put_in name_cmp names.old.keys (names_of found.now)) }
{
    let Some(Ok(front)) = found else {
        return Ok(());
    };
    match front.routes.get().hosts.as_slice().get(front.host as usize) {
        Some(host) => put_host(names, host),
        None => Ok(()),
    }
}
