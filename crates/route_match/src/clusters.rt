//! The cluster that an answer names.
ghost use Rattle.std.specs.Prelude.{◌≡◌, option_copied, Contains, IfSome};
ghost use Rattle.xds_config.specs.Configs.{front_clusters};
ghost use Rattle.route_match.specs.NamedClusters.{answer_cluster, chosen_of};

use crate::answer::RouteAnswer;
use crate::route_choice::host_of;
use xc_base::Text;
use xds_config::{Action, Front};

/// The cluster that an answer names. None exactly where the answer isn't a `To` that the front's virtual
/// host can give. It takes no memory.
pub fn cluster_of<'a>(front: &'a Front, answer: &RouteAnswer) -> Option<&'a Text>
    ensures cluster { option_copied result ≡ answer_cluster front.now answer.now }
    ensures named { IfSome result (λ c. Contains (front_clusters front.now) c.now) }
{
    match answer {
        RouteAnswer::To { route, choice } => {
            let host = host_of(front)?;
            let route = host.routes.at(*route)?;
            chosen_of(&route.action, *choice)
        }
        _ => None,
    }
}

/// The cluster at a place of an action's list.
fn chosen_of(action: &Action, choice: u32) -> Option<&Text>
    ensures { option_copied result ≡ chosen_of action.now choice }
{
    match action {
        Action::To(clusters) => {
            let cluster = clusters.as_slice().get(choice as usize)?;
            Some(&cluster.cluster)
        }
        Action::Nothing => None,
    }
}
