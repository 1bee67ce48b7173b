//! An aggregate of clusters.
ghost use Rattle.std.specs.Prelude.{◌<◌, ◌^◌, length};
ghost use Rattle.proto_wire.specs.Reading.{Gives};
ghost use Rattle.proto_cluster.specs.Aggregate.{aggregate_of};

use proto_wire::{WireFault, fields, texts};
use std::alloc::Global;
use xc_base::{List, Text};

/// Reads the ClusterConfig of an aggregate: the names of its clusters in their order. `At` comes exactly where
/// the bytes are no list of fields or a name isn't UTF-8, and is the first such place.
#[tactic(auto, unfolding(crate::specs::Aggregate::aggregate_of))]
pub fn read_aggregate(alloc: Global, bytes: &[u8]) -> Result<List<Text>, WireFault>
    requires { length bytes.now < 2 ^ 32 }
    ensures { Gives (λ clusters. clusters) result (aggregate_of bytes.now) }
{
    let list = fields(alloc, bytes)?;
    texts(alloc, &list, 1)
}
