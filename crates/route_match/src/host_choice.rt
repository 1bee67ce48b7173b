//! Which virtual host a text chooses.
ghost use Rattle.std.specs.Prelude.{◌≡◌, ◌<◌, ◌^◌, ◌↔◌, ℕ, List, length, option_map, All, IsNone, IfSome};
ghost use Rattle.route_match.specs.Domains.{host, IsChosen, MeetsNone};
ghost use Rattle.route_match.specs.Ranks.{IsBestOf};

use crate::domains::{Rank, better, rank_of};
use xc_base::{List, Text};
use xds_config::Host;

/// The place of the virtual host that a text chooses, from 0: the first host that has the best of all
/// domains that the text meets, which is the first by class, and of one class the longest (gRFC A28).
/// None exactly where no domain is met. It takes no memory.
pub fn choose_host(hosts: &List<Host>, text: &Text) -> Option<u32>
    requires few { length hosts.now < 2 ^ 31 }
    ensures host { result ≡ host hosts.now text.now }
    ensures chosen { IfSome result (λ place. (domain : List ℕ) × IsChosen hosts.now text.now place domain) }
    ensures none { IsNone result ↔ All (MeetsNone text.now) hosts.now }
{
    let mut best = None;
    for (place, host) in hosts.as_slice().iter().enumerate() {
        best = better(best, best_rank(place as u32, host.domains.as_slice(), text));
    }
    host_of(best)
}

/// The rank of the best of a host's domains that the text meets.
fn best_rank(host: u32, domains: &[Text], text: &Text) -> Option<Rank>
    ensures { IsBestOf domains.now text.now host result }
{
    let mut best = None;
    for domain in domains {
        best = better(best, rank_of(host, domain, text));
    }
    best
}

/// The place of the host of a rank.
fn host_of(best: Option<Rank>) -> Option<u32>
    ensures { result ≡ option_map (λ r. r.host) best }
{
    best.map(|rank| rank.host)
}
