//! A route configuration, its virtual hosts and their routes.
ghost use Rattle.std.specs.Prelude.{◌<◌, ◌^◌, length};
ghost use Rattle.proto_wire.specs.Reading.{Gives};
ghost use Rattle.proto_route.specs.RawRouteFields.{routes_of};

use crate::route_action::RawRouteAction;
use crate::route_match::RawRouteMatch;
use proto_wire::{Message, WireFault, fields, last_text, read_repeated, read_singular, texts};
use std::alloc::Global;
use xc_base::{List, Text};

/// A Route.
#[derive(Drop)]
pub struct RawRoute {
    /// Which calls the route is for.
    pub match_: Option<RawRouteMatch>,
    /// Where they go.
    pub route: Option<RawRouteAction>,
}

/// A VirtualHost (gRFC A27).
#[derive(Drop)]
pub struct RawVirtualHost {
    pub name: Text,
    /// The hosts for which it is, some by a pattern with a `*`.
    pub domains: List<Text>,
    /// The routes in the order in which they are tried.
    pub routes: List<RawRoute>,
}

/// A RouteConfiguration (gRFC A27).
#[derive(Drop)]
pub struct RawRoutes {
    pub name: Text,
    /// The virtual hosts, of which one serves a target.
    pub virtual_hosts: List<RawVirtualHost>,
}

impl Message for RawRoute {
    ghost use Rattle.proto_route.specs.RawRouteFields.{route_of};

    ghost reading = { route_of };

    #[tactic(auto, unfolding(crate::specs::RawRouteFields::route_of))]
    fn read(alloc: Global, bytes: &[u8]) -> Result<RawRoute, WireFault> {
        let list = fields(alloc, bytes)?;
        let match_ = read_singular::<RawRouteMatch>(alloc, &list, 1)?;
        let route = read_singular::<RawRouteAction>(alloc, &list, 2)?;
        Ok(RawRoute { match_, route })
    }
}

impl Message for RawVirtualHost {
    ghost use Rattle.proto_route.specs.RawRouteFields.{virtual_host_of};

    ghost reading = { virtual_host_of };

    #[tactic(auto, unfolding(crate::specs::RawRouteFields::virtual_host_of))]
    fn read(alloc: Global, bytes: &[u8]) -> Result<RawVirtualHost, WireFault> {
        let list = fields(alloc, bytes)?;
        let name = last_text(alloc, &list, 1)?;
        let domains = texts(alloc, &list, 2)?;
        let routes = read_repeated::<RawRoute>(alloc, &list, 3)?;
        Ok(RawVirtualHost {
            name,
            domains,
            routes,
        })
    }
}

impl Message for RawRoutes {
    ghost use Rattle.proto_route.specs.RawRouteFields.{routes_of};

    ghost reading = { routes_of };

    #[tactic(auto, unfolding(crate::specs::RawRouteFields::routes_of))]
    fn read(alloc: Global, bytes: &[u8]) -> Result<RawRoutes, WireFault> {
        let list = fields(alloc, bytes)?;
        let name = last_text(alloc, &list, 1)?;
        let virtual_hosts = read_repeated::<RawVirtualHost>(alloc, &list, 2)?;
        Ok(RawRoutes {
            name,
            virtual_hosts,
        })
    }
}

/// Reads a RouteConfiguration with all its messages. `At` comes exactly where the bytes, or those of a message
/// in them, are no list of fields, or a listed text isn't UTF-8. In each message the list of its fields comes
/// first, then the listed fields in the order of their numbers, and of a repeated one the first occurrence;
/// the place is counted from the start of the message in which it lies.
pub fn read_routes(alloc: Global, bytes: &[u8]) -> Result<RawRoutes, WireFault>
    requires { length bytes.now < 2 ^ 32 }
    ensures { Gives (λ routes. routes) result (routes_of bytes.now) }
{
    RawRoutes::read(alloc, bytes)
}
