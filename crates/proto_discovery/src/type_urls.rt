//! The URLs of types, by which a message of any type is told.
ghost use Rattle.std.specs.Prelude.{◌≡◌};
ghost use Rattle.proto_discovery.specs.TypeUrls.{type_url_of, kind_of};

use xc_base::Kind;

/// The type of a listener, `envoy.config.listener.v3.Listener`.
pub const LISTENER_URL: &str = "type.googleapis.com/envoy.config.listener.v3.Listener";

/// The type of a route resource, `envoy.config.route.v3.RouteConfiguration`.
pub const ROUTE_URL: &str = "type.googleapis.com/envoy.config.route.v3.RouteConfiguration";

/// The type of a cluster, `envoy.config.cluster.v3.Cluster`.
pub const CLUSTER_URL: &str = "type.googleapis.com/envoy.config.cluster.v3.Cluster";

/// The type of an endpoint resource, `envoy.config.endpoint.v3.ClusterLoadAssignment`.
pub const ENDPOINT_URL: &str = "type.googleapis.com/envoy.config.endpoint.v3.ClusterLoadAssignment";

/// The type of the wrapper that names a resource, `envoy.service.discovery.v3.Resource`.
pub const WRAPPER_URL: &str = "type.googleapis.com/envoy.service.discovery.v3.Resource";

/// The type of the connection manager in a listener's `api_listener`.
pub const MANAGER_URL: &str =
    "type.googleapis.com/envoy.extensions.filters.network.http_connection_manager.v3.HttpConnectionManager";

/// The type of an aggregate cluster's configuration.
pub const AGGREGATE_URL: &str =
    "type.googleapis.com/envoy.extensions.clusters.aggregate.v3.ClusterConfig";

/// The type URL of the resources of a kind.
#[tactic(auto, unfolding(crate::specs::TypeUrls::listener_url, crate::specs::TypeUrls::route_url, crate::specs::TypeUrls::cluster_url, crate::specs::TypeUrls::endpoint_url))]
pub fn type_url(kind: Kind) -> &'static str
    ensures { result.now ≡ type_url_of kind }
{
    match kind {
        Kind::Listener => LISTENER_URL,
        Kind::Route => ROUTE_URL,
        Kind::Cluster => CLUSTER_URL,
        Kind::Endpoint => ENDPOINT_URL,
    }
}

/// The kind whose resources have the type URL, if it is one of the four.
#[tactic(auto, unfolding(crate::specs::TypeUrls::listener_url, crate::specs::TypeUrls::route_url, crate::specs::TypeUrls::cluster_url, crate::specs::TypeUrls::endpoint_url))]
pub fn kind_of(url: &str) -> Option<Kind>
    ensures { result ≡ kind_of url.now }
{
    if url == LISTENER_URL {
        Some(Kind::Listener)
    } else if url == ROUTE_URL {
        Some(Kind::Route)
    } else if url == CLUSTER_URL {
        Some(Kind::Cluster)
    } else if url == ENDPOINT_URL {
        Some(Kind::Endpoint)
    } else {
        None
    }
}
