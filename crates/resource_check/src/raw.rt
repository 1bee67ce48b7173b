//! Resources as they are read.
ghost use Rattle.std.specs.Prelude.{◌≡◌, IfOk};
ghost use Rattle.resource_check.specs.Resources.{own_name, raw_kind, read_raw};
ghost use Rattle.check_steps.specs.TableSteps.{Tells, readable};

use check_steps::check_fault::Fault;
use check_steps::table_steps::read;
use proto_cluster::{RawAssignment, RawCluster};
use proto_listener::RawListener;
use proto_route::RawRoutes;
use std::alloc::Global;
use xc_base::{Kind, Text};

/// The message of a resource of one of the four kinds.
#[derive(Drop)]
pub enum Raw {
    Listener(RawListener),
    Route(RawRoutes),
    Cluster(RawCluster),
    Endpoint(RawAssignment),
}

/// Reads the message of a resource of the kind.
pub fn read_raw(alloc: Global, kind: Kind, bytes: &[u8]) -> Result<Raw, Fault>
    ensures value { Tells result (readable (read_raw kind bytes.now)) }
    ensures kind { IfOk result (λ raw. raw_kind raw ≡ kind) }
{
    match kind {
        Kind::Listener => {
            let message = read::<RawListener>(alloc, bytes)?;
            Ok(Raw::Listener(message))
        }
        Kind::Route => {
            let message = read::<RawRoutes>(alloc, bytes)?;
            Ok(Raw::Route(message))
        }
        Kind::Cluster => {
            let message = read::<RawCluster>(alloc, bytes)?;
            Ok(Raw::Cluster(message))
        }
        Kind::Endpoint => {
            let message = read::<RawAssignment>(alloc, bytes)?;
            Ok(Raw::Endpoint(message))
        }
    }
}

impl Raw {
    /// The name that stands in the message.
    pub fn own_name(&self) -> &Text
        ensures { result.now ≡ own_name self.now }
    {
        match self {
            Raw::Listener(message) => &message.name,
            Raw::Route(message) => &message.name,
            Raw::Cluster(message) => &message.name,
            Raw::Endpoint(message) => &message.cluster_name,
        }
    }
}

/// A resource that was read, with its canonical name.
#[derive(Drop)]
pub struct Found {
    pub name: Text,
    pub raw: Raw,
}
