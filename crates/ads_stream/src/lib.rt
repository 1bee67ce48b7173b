//! One authority's aggregated stream (Envoy's xDS protocol, "Aggregated Discovery Service").
#![tactic(auto)]

pub mod request_names;
pub mod stream;
pub mod stream_laws;
pub mod subscription;
pub mod verdict;

pub use request_names::Names;
pub use stream::{Stream, StreamState};
pub use stream_laws::{names_are_told_apart, requests_follow_calls};
pub use subscription::{Answer, Subscription};
pub use verdict::Verdict;
