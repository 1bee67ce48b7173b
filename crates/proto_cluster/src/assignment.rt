//! The endpoints of a cluster.
ghost use Rattle.std.specs.Prelude.{◌<◌, ◌^◌, length};
ghost use Rattle.proto_wire.specs.Reading.{Gives};
ghost use Rattle.proto_cluster.specs.Assignment.{assignment_of};

use crate::locality::RawLocalityLbEndpoints;
use proto_route::RawFractionalPercent;
use proto_wire::{Message, WireFault, fields, last_text, read_repeated, read_singular};
use std::alloc::Global;
use xc_base::{List, Text};

/// A DropOverload: a part of the calls that is dropped.
#[derive(Drop)]
pub struct RawDrop {
    /// The name under which dropped calls are counted.
    pub category: Text,
    /// The part of the calls.
    pub drop_percentage: Option<RawFractionalPercent>,
}

/// The Policy of a ClusterLoadAssignment.
#[derive(Drop)]
pub struct RawPolicy {
    /// The rules in the order in which they are tried.
    pub drop_overloads: List<RawDrop>,
}

/// A ClusterLoadAssignment (gRFC A27).
#[derive(Drop)]
pub struct RawAssignment {
    pub cluster_name: Text,
    /// The localities with their endpoints.
    pub endpoints: List<RawLocalityLbEndpoints>,
    pub policy: Option<RawPolicy>,
}

impl Message for RawDrop {
    ghost use Rattle.proto_cluster.specs.Assignment.{drop_of};

    ghost reading = { drop_of };

    #[tactic(auto, unfolding(crate::specs::Assignment::drop_of))]
    fn read(alloc: Global, bytes: &[u8]) -> Result<RawDrop, WireFault> {
        let list = fields(alloc, bytes)?;
        let category = last_text(alloc, &list, 1)?;
        let drop_percentage = read_singular::<RawFractionalPercent>(alloc, &list, 2)?;
        Ok(RawDrop {
            category,
            drop_percentage,
        })
    }
}

impl Message for RawPolicy {
    ghost use Rattle.proto_cluster.specs.Assignment.{policy_of};

    ghost reading = { policy_of };

    #[tactic(auto, unfolding(crate::specs::Assignment::policy_of))]
    fn read(alloc: Global, bytes: &[u8]) -> Result<RawPolicy, WireFault> {
        let list = fields(alloc, bytes)?;
        let drop_overloads = read_repeated::<RawDrop>(alloc, &list, 2)?;
        Ok(RawPolicy { drop_overloads })
    }
}

impl Message for RawAssignment {
    ghost use Rattle.proto_cluster.specs.Assignment.{assignment_of};

    ghost reading = { assignment_of };

    #[tactic(auto, unfolding(crate::specs::Assignment::assignment_of))]
    fn read(alloc: Global, bytes: &[u8]) -> Result<RawAssignment, WireFault> {
        let list = fields(alloc, bytes)?;
        let cluster_name = last_text(alloc, &list, 1)?;
        let endpoints = read_repeated::<RawLocalityLbEndpoints>(alloc, &list, 2)?;
        let policy = read_singular::<RawPolicy>(alloc, &list, 4)?;
        Ok(RawAssignment {
            cluster_name,
            endpoints,
            policy,
        })
    }
}

/// Reads a ClusterLoadAssignment with all its messages. `At` comes exactly where the bytes, or those of a message
/// in them, are no list of fields, or a listed text isn't UTF-8. In each message the list of its fields comes
/// first, then the listed fields in the order of their numbers, and of a repeated one the first occurrence;
/// the place is counted from the start of the message in which it lies.
pub fn read_assignment(alloc: Global, bytes: &[u8]) -> Result<RawAssignment, WireFault>
    requires { length bytes.now < 2 ^ 32 }
    ensures { Gives (λ assignment. assignment) result (assignment_of bytes.now) }
{
    RawAssignment::read(alloc, bytes)
}
