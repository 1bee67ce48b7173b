//! A configuration of one cluster whose endpoints aren't there.
ghost use Rattle.std.specs.Prelude.{◌≡◌, length, IfOk};
ghost use Rattle.xds_config.specs.Configs.{AreLawfulLeaves, IsLawfulConfig};

use block_list::in_blocks;
use std::alloc::Global;
use std::test::Fail;
use xc_base::{List, Reason, Shared, Text};
use xds_config::{ClusterEntry, Clusters, Config, Leaf, Leaves};

fn leaves(alloc: Global) -> Result<Leaves, Fail>
    ensures { IfOk result AreLawfulLeaves }
{
    let mut leaves = List::new(alloc);
    leaves.push(Leaf {
        name: Text::from_str(alloc, "web")?,
        state: Err(Reason::Absent),
    })?;
    Ok(Leaves {
        aggregate: false,
        leaves,
    })
}

/// A configuration of one cluster. Its calls have no routes.
pub fn config(alloc: Global) -> Result<Shared<Config>, Fail>
    ensures lawful { IfOk result IsLawfulConfig }
    ensures one { IfOk result (λ config. length config.clusters ≡ 1) }
{
    let leaves = Shared::new(alloc, leaves(alloc)?)?;
    let entry = ClusterEntry {
        name: Text::from_str(alloc, "web")?,
        state: Ok(leaves),
    };
    let mut clusters = List::new(alloc);
    clusters.push(Shared::new(alloc, entry)?)?;
    let config = Config {
        front: Err(Reason::Absent),
        clusters: Clusters::from_blocks(in_blocks(alloc, clusters)?),
    };
    Ok(Shared::new(alloc, config)?)
}
