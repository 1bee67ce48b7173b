//! A connection manager.
ghost use Rattle.std.specs.Prelude.{◌≡◌, ◌<◌, ◌^◌, length, option_map};
ghost use Rattle.proto_wire.specs.Reading.{Gives};
ghost use Rattle.proto_listener.specs.Manager.{manager_of};
ghost use Rattle.proto_listener.specs.declared.manager.RawManagerOne.TheVariants.{Rds, RouteConfig};

use proto_route::{RawConfigSource, RawRoutes};
use proto_wire::{
    Member, Message, WireFault, fields, last_text, occurrences, read_member, read_singular,
};
use std::alloc::Global;
use xc_base::Text;

/// An Rds: the routes are a resource of this name.
#[derive(Drop)]
pub struct RawRds {
    /// Where the resource comes from.
    pub config_source: Option<RawConfigSource>,
    /// The name of the resource.
    pub route_config_name: Text,
}

/// Where a connection manager has its routes from.
#[derive(Drop)]
pub enum RawManagerOne {
    /// They are a resource of their own.
    Rds(RawRds),
    /// They stand in the manager.
    RouteConfig(RawRoutes),
}

/// An HttpConnectionManager (gRFC A27).
#[derive(Drop)]
pub struct RawManager {
    /// The routes that are set, if a listed member is.
    pub one: Option<RawManagerOne>,
}

impl Message for RawRds {
    ghost use Rattle.proto_listener.specs.Manager.{rds_of};

    ghost reading = { rds_of };

    #[tactic(auto, unfolding(crate::specs::Manager::rds_of))]
    fn read(alloc: Global, bytes: &[u8]) -> Result<RawRds, WireFault> {
        let list = fields(alloc, bytes)?;
        let config_source = read_singular::<RawConfigSource>(alloc, &list, 1)?;
        let route_config_name = last_text(alloc, &list, 2)?;
        Ok(RawRds {
            config_source,
            route_config_name,
        })
    }
}

/// Routes that are a resource of their own.
fn by_rds(rds: Option<RawRds>) -> Option<RawManagerOne>
    ensures { result ≡ option_map Rds rds }
{
    rds.map(RawManagerOne::Rds)
}

/// Routes that stand in the manager.
fn inline(route_config: Option<RawRoutes>) -> Option<RawManagerOne>
    ensures { result ≡ option_map RouteConfig route_config }
{
    route_config.map(RawManagerOne::RouteConfig)
}

impl Message for RawManager {
    ghost use Rattle.proto_listener.specs.Manager.{manager_of};

    ghost reading = { manager_of };

    #[tactic(auto, unfolding(crate::specs::Manager::manager_of))]
    fn read(alloc: Global, bytes: &[u8]) -> Result<RawManager, WireFault> {
        let list = fields(alloc, bytes)?;
        let members = occurrences(alloc, &list, &[Member::Bytes(3), Member::Bytes(4)])?;
        let rds = read_member::<RawRds>(alloc, &members, 3)?;
        let route_config = read_member::<RawRoutes>(alloc, &members, 4)?;
        Ok(RawManager {
            one: by_rds(rds).or(inline(route_config)),
        })
    }
}

/// Reads an HttpConnectionManager with its messages. `At` comes exactly where the bytes, or those of a message
/// that is set in them, are no list of fields, or a listed text isn't UTF-8. In each message the list of its
/// fields comes first, then the listed fields in the order of their numbers; the place is counted from the
/// start of the message in which it lies.
pub fn read_manager(alloc: Global, bytes: &[u8]) -> Result<RawManager, WireFault>
    requires { length bytes.now < 2 ^ 32 }
    ensures { Gives (λ manager. manager) result (manager_of bytes.now) }
{
    RawManager::read(alloc, bytes)
}
