//! Where a call goes.
use xc_base::{Reason, Same};

/// Where a call goes (gRFC A28). A `route` is the place of a route among all routes of its virtual host in the
/// resource, from 0, and a `choice` a place in that route's list of weighted clusters, from 0.
#[derive(Clone, Copy, PartialEq, Eq)]
pub enum RouteAnswer {
    /// To a cluster of a route.
    To { route: u32, choice: u32 },
    /// No route is for the call.
    NoRoute,
    /// The route is for another action than forwarding, so the call fails.
    NoAction { route: u32 },
    /// The configuration has no routes, for this reason.
    NoFront { reason: Reason },
}

impl Same for RouteAnswer {
    fn same(&self, other: &RouteAnswer) -> bool {
        match (self, other) {
            (
                RouteAnswer::To {
                    route: a,
                    choice: c,
                },
                RouteAnswer::To {
                    route: b,
                    choice: d,
                },
            ) => *a == *b && *c == *d,
            (RouteAnswer::NoRoute, RouteAnswer::NoRoute) => true,
            (RouteAnswer::NoAction { route: a }, RouteAnswer::NoAction { route: b }) => *a == *b,
            (RouteAnswer::NoFront { reason: a }, RouteAnswer::NoFront { reason: b }) => a.same(b),
            _ => false,
        }
    }
}
