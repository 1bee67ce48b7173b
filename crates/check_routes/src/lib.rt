//! The checks of listeners and of route configurations, by tables that stand as definitions (gRFC A27, A28, Envoy's
//! Listener, HttpConnectionManager, route and HeaderMatcher).
#![tactic(auto)]

mod header_check;
pub mod host_check;
pub mod listener_check;
mod route_check;

pub use host_check::check_routes;
pub use listener_check::check_listener;
