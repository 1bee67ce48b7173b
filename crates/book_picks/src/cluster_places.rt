//! The places of the clusters of a configuration by their names.
ghost use Rattle.std.specs.Prelude.{◌<◌, ◌^◌, length, AllPairs, IfOk};
ghost use Rattle.xds_config.specs.Configs.{IsNameBefore};
ghost use Rattle.book_picks.specs.NamedPlaces.{ArePlacesOf};

use block_list::BlockList;
use std::alloc::Global;
use std::collections::BTreeMap;
use xc_base::{Memory, Shared, Text};
use xds_config::ClusterEntry;

/// The place of each cluster, from 0, by its name. It fails for want of memory alone.
pub fn places_of(
    alloc: Global,
    clusters: &BlockList<Shared<ClusterEntry>>,
) -> Result<BTreeMap<Text, u32>, Memory>
    requires rising { AllPairs (λ a b. IsNameBefore a.name b.name) clusters.now }
    requires few { length clusters.now < 2 ^ 31 }
    ensures { IfOk result (λ places. ArePlacesOf clusters.now places.entries) }
{
    let mut places = BTreeMap::new(alloc);
    for place in 0..clusters.len() {
        let name = clusters.at(place).get().name.clone()?;
        places.insert(name, place as u32)?;
    }
    Ok(places)
}
