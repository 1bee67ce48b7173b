//! The value of a Listener resource (gRFC A27).
use crate::route_values::RouteValue;
use xc_base::{Same, Shared, Text};

/// A listener of a client, under its canonical name.
#[derive(Debug, Drop, PartialEq, Eq)]
pub struct ListenerValue {
    pub name: Text,
    pub routes: RoutesFrom,
}

/// Where the routes of a listener come from.
#[derive(Debug, Drop, PartialEq, Eq)]
pub enum RoutesFrom {
    /// They stand in the listener itself.
    Inline(Shared<RouteValue>),
    /// They are the Route resource of this name.
    Named(Text),
}

impl Same for ListenerValue {
    fn same(&self, other: &ListenerValue) -> bool {
        self.name.same(&other.name) && self.routes.same(&other.routes)
    }
}

impl Same for RoutesFrom {
    fn same(&self, other: &RoutesFrom) -> bool {
        match (self, other) {
            (RoutesFrom::Inline(a), RoutesFrom::Inline(b)) => a.same(b),
            (RoutesFrom::Named(a), RoutesFrom::Named(b)) => a.same(b),
            _ => false,
        }
    }
}
