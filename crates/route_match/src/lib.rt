//! Which virtual host and which route a call meets (gRFC A28).
#![tactic(auto)]

pub mod answer;
pub mod clusters;
pub mod domains;
pub mod host_choice;
pub mod route_choice;

pub use answer::RouteAnswer;
pub use clusters::cluster_of;
pub use host_choice::choose_host;
pub use route_choice::choose_route;
