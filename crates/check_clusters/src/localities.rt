//! The rules on all localities of a ClusterLoadAssignment, which stand in ascending priority (gRFC A27, A56, Envoy's
//! endpoint API).
ghost use Rattle.std.specs.Prelude.{◌≡◌, ◌≤◌, AllPairs, IfOk};
ghost use Rattle.check_clusters.specs.Assignments.{by_priority, have_no_gap, have_weights, stand_once, stand_soundly};
ghost use Rattle.check_clusters.specs.Places.{place_of};
ghost use Rattle.check_steps.specs.TableSteps.{Tells};

use check_steps::check_fault::Fault;
use check_steps::table_steps::demand;
use std::alloc::Global;
use std::collections::BTreeSet;
use xc_base::{List, Memory, Reason, Text};
use xds_config::Locality;

/// Where a locality stands: in a priority, under a name.
#[derive(Drop, PartialEq, Eq, PartialOrd, Ord)]
struct Place {
    priority: u32,
    region: Text,
    zone: Text,
    sub_zone: Text,
}

/// Where the locality stands.
fn place_of(locality: &Locality) -> Result<Place, Memory>
    ensures { IfOk result (λ place. place ≡ place_of locality.now) }
{
    let region = locality.id.region.clone()?;
    let zone = locality.id.zone.clone()?;
    let sub_zone = locality.id.sub_zone.clone()?;
    Ok(Place {
        priority: locality.priority,
        region,
        zone,
        sub_zone,
    })
}

/// The localities in ascending priority, and inside a priority in the order in which they came.
pub fn by_priority(localities: List<Locality>) -> Result<List<Locality>, Memory>
    ensures { IfOk result (λ ordered. ordered ≡ by_priority localities) }
{
    let mut localities = localities.into_vec();
    localities.sort_by_key(|locality| locality.priority)?;
    Ok(List::from_vec(localities))
}

/// Whether each locality stands once in its priority.
fn stand_once(alloc: Global, localities: &[Locality]) -> Result<bool, Memory>
    ensures { IfOk result (λ once. once ≡ stand_once localities.now) }
{
    let mut places = BTreeSet::new(alloc);
    for locality in localities {
        let place = place_of(locality)?;
        let is_new = places.insert(place)?;
        if !is_new {
            return Ok(false);
        }
    }
    Ok(true)
}

/// Whether each locality stands once in its priority; no set is made where there are fewer than two.
fn are_apart(alloc: Global, localities: &[Locality]) -> Result<bool, Memory>
    ensures { IfOk result (λ once. once ≡ stand_once localities.now) }
{
    if localities.len() < 2 {
        return Ok(true);
    }
    stand_once(alloc, localities)
}

/// Whether the weights of each priority sum to at most 4,294,967,295.
fn have_weights(localities: &[Locality]) -> bool
    requires { AllPairs (λ a b. a.priority ≤ b.priority) localities.now }
    ensures { result ≡ have_weights localities.now }
{
    let mut priority = 0;
    let mut sum = 0u64;
    for locality in localities {
        let so_far = if locality.priority == priority {
            sum
        } else {
            0
        };
        priority = locality.priority;
        sum = so_far + u64::from(locality.weight);
        if sum > u64::from(u32::MAX) {
            return false;
        }
    }
    true
}

/// Whether the priorities are those from 0 up to the greatest.
fn have_no_gap(localities: &[Locality]) -> bool
    requires { AllPairs (λ a b. a.priority ≤ b.priority) localities.now }
    ensures { result ≡ have_no_gap localities.now }
{
    // the first that isn't there yet
    let mut next = 0u64;
    for locality in localities {
        let priority = u64::from(locality.priority);
        if priority > next {
            return false;
        }
        if priority == next {
            next += 1;
        }
    }
    true
}

/// The rules on localities in ascending priority: each stands once in a priority, the weights of each priority are
/// within range, and no priority is missing below another.
#[tactic(auto, unfolding(crate::specs::Assignments::stand_soundly))]
pub fn stand_soundly(alloc: Global, localities: &[Locality]) -> Result<(), Fault>
    requires { AllPairs (λ a b. a.priority ≤ b.priority) localities.now }
    ensures { Tells result (stand_soundly localities.now) }
{
    let once = are_apart(alloc, localities)?;
    demand(once, Reason::LocalityTwice)?;
    demand(have_weights(localities), Reason::Weights)?;
    demand(have_no_gap(localities), Reason::PriorityGap)
}
