//! The value of a Route resource: virtual hosts with their routes (gRFC A28).
use crate::ordered_routes::Routes;
use header_match::{HeaderRule, Pattern};
use weight_pick::Fraction;
use xc_base::{List, Same, Text};

/// A route configuration. Its name is empty where it stands in a listener without one.
#[derive(Debug, Drop, PartialEq, Eq)]
pub struct RouteValue {
    pub name: Text,
    pub hosts: List<Host>,
}

/// A virtual host: the routes of the channels whose host meets one of its domains.
#[derive(Debug, Drop, PartialEq, Eq)]
pub struct Host {
    pub name: Text,
    pub domains: List<Text>,
    pub routes: Routes,
}

/// A route: the calls that it is for, and where they go. Its place, from 0, is the one among all
/// routes of its virtual host in the resource, where those that the check leaves out are counted, too.
#[derive(Debug, Drop, PartialEq, Eq)]
pub struct Route {
    pub place: u32,
    pub path: PathTest,
    pub headers: List<HeaderRule>,
    /// The fraction that is taken of the calls whose path and headers are met; none stands for all.
    pub fraction: Option<Fraction>,
    pub action: Action,
}

/// A test of a call's path. Where `case` is false, ASCII letters are compared without case.
#[derive(Debug, Drop, PartialEq, Eq)]
pub enum PathTest {
    /// The path begins with the text.
    Prefix { text: Text, case: bool },
    /// The path is the text.
    Whole { text: Text, case: bool },
    /// The pattern meets the whole path.
    Pattern(Pattern),
}

/// Where a route leads.
#[derive(Debug, Drop, PartialEq, Eq)]
pub enum Action {
    /// To one of the clusters, which a draw chooses by weight. A single cluster has weight 1.
    To(List<Weighted>),
    /// Nowhere: the route is for another action than forwarding.
    Nothing,
}

/// A cluster with its weight, which is at most 4,294,967,295 and may be 0.
#[derive(Debug, Drop, PartialEq, Eq)]
pub struct Weighted {
    pub cluster: Text,
    pub weight: u32,
}

impl Same for RouteValue {
    fn same(&self, other: &RouteValue) -> bool {
        self.name.same(&other.name) && self.hosts.same(&other.hosts)
    }
}

impl Same for Host {
    fn same(&self, other: &Host) -> bool {
        self.name.same(&other.name)
            && self.domains.same(&other.domains)
            && self.routes.same(&other.routes)
    }
}

impl Same for Route {
    fn same(&self, other: &Route) -> bool {
        self.place == other.place
            && self.path.same(&other.path)
            && self.headers.same(&other.headers)
            && self.fraction.same(&other.fraction)
            && self.action.same(&other.action)
    }
}

impl Same for PathTest {
    fn same(&self, other: &PathTest) -> bool {
        match (self, other) {
            (PathTest::Prefix { text: a, case: c }, PathTest::Prefix { text: b, case: d }) => {
                *c == *d && a.same(b)
            }
            (PathTest::Whole { text: a, case: c }, PathTest::Whole { text: b, case: d }) => {
                *c == *d && a.same(b)
            }
            (PathTest::Pattern(a), PathTest::Pattern(b)) => a.same(b),
            _ => false,
        }
    }
}

impl Same for Action {
    fn same(&self, other: &Action) -> bool {
        match (self, other) {
            (Action::To(a), Action::To(b)) => a.same(b),
            (Action::Nothing, Action::Nothing) => true,
            _ => false,
        }
    }
}

impl Same for Weighted {
    fn same(&self, other: &Weighted) -> bool {
        self.weight == other.weight && self.cluster.same(&other.cluster)
    }
}
