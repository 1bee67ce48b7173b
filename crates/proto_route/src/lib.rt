//! The messages of a RouteConfiguration, by Envoy's route API, read by field number: a struct for each
//! message, with its listed fields as they stand. Nothing of their content is judged here.
#![tactic(auto)]

pub mod config_source;
pub mod fractional_percent;
pub mod header_matcher;
pub mod route_action;
pub mod route_match;
pub mod routes;
pub mod string_matcher;

pub use config_source::{RawConfigSource, RawConfigSourceOne};
pub use fractional_percent::{RawFractionalPercent, RawRuntimeFractionalPercent};
pub use header_matcher::{RawHeaderMatcher, RawHeaderMatcherOne, RawRange};
pub use route_action::{RawClusterWeight, RawRouteAction, RawRouteActionOne, RawWeightedCluster};
pub use route_match::{RawRouteMatch, RawRouteMatchOne};
pub use routes::{RawRoute, RawRoutes, RawVirtualHost, read_routes};
pub use string_matcher::{RawRegexMatcher, RawStringMatcher, RawStringMatcherOne};
