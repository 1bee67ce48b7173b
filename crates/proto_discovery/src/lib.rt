//! The messages of discovery, by Envoy's transport protocol: responses are read and requests are written,
//! each in its one spelling. Resources stand in messages of any type, which the URL of the type tells.
#![tactic(auto)]

pub mod any;
pub mod request;
pub mod response;
pub mod type_urls;
pub mod wrapper;

pub use any::AnyValue;
pub use request::{Request, write_request};
pub use response::{Response, read_response};
pub use type_urls::{
    AGGREGATE_URL, CLUSTER_URL, ENDPOINT_URL, LISTENER_URL, MANAGER_URL, ROUTE_URL, WRAPPER_URL,
    kind_of, type_url,
};
pub use wrapper::{Unwrapped, unwrap_resource};
