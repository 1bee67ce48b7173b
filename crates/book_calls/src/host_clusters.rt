//! The clusters that the host of a snapshot names, and the one of an answer.
ghost use Rattle.std.specs.Prelude.{◌≡◌, ◌++◌, map, IfOk, OnOk};
ghost use Rattle.std.specs.Option.{option_copied};
ghost use Rattle.xds_config.specs.RouteValues.{action_clusters, host_clusters};
ghost use Rattle.xds_history.specs.config_assembly.Front.{names_of_front};
ghost use Rattle.xds_history.specs.References.{names_in, routed_to};

use cluster_tree::Snapshot;
use route_match::{RouteAnswer, cluster_of};
use std::alloc::Global;
use xc_base::{List, Memory, Reason, Text};
use xds_config::{Action, Front, Host, Weighted};

/// Adds the names of clusters.
fn add_clusters(names: &mut List<Text>, clusters: &[Weighted]) -> Result<(), Memory>
    ensures { OnOk result (names.new ≡ names.old ++ map (λ c. c.cluster) clusters.now) }
{
    for weighted in clusters {
        names.push(weighted.cluster.clone()?)?;
    }
    Ok(())
}

/// Adds the clusters that an action names.
fn add_action(names: &mut List<Text>, action: &Action) -> Result<(), Memory>
    ensures { OnOk result (names.new ≡ names.old ++ action_clusters action.now) }
{
    if let Action::To(clusters) = action {
        add_clusters(names, clusters.as_slice())?;
    }
    Ok(())
}

/// The clusters that the routes of a virtual host name.
fn host_clusters(alloc: Global, host: &Host) -> Result<List<Text>, Memory>
    ensures { IfOk result (λ names. names ≡ host_clusters host.now) }
{
    let mut names = List::new(alloc);
    for route in host.routes.as_slice() {
        add_action(&mut names, &route.action)?;
    }
    Ok(names)
}

/// The clusters that the host of a front names.
fn names_of_front(alloc: Global, front: &Result<Front, Reason>) -> Result<List<Text>, Memory>
    ensures { IfOk result (λ names. names ≡ names_of_front front.now) }
{
    let Ok(front) = front else {
        return Ok(List::new(alloc));
    };
    match front.routes.get().hosts.as_slice().get(front.host as usize) {
        Some(host) => host_clusters(alloc, host),
        None => Ok(List::new(alloc)),
    }
}

/// The clusters that the host of a snapshot names. It fails for want of memory alone.
pub fn names_in(alloc: Global, snapshot: &Snapshot) -> Result<List<Text>, Memory>
    ensures { IfOk result (λ names. names ≡ names_in snapshot.now) }
{
    names_of_front(alloc, &snapshot.config.get().front)
}

/// The cluster that an answer of a front names. It takes no memory.
pub fn routed_to<'a>(front: &'a Result<Front, Reason>, answer: &RouteAnswer) -> Option<&'a Text>
    ensures { option_copied result ≡ routed_to front.now answer.now }
{
    match front {
        Ok(front) => cluster_of(front, answer),
        Err(_) => None,
    }
}
