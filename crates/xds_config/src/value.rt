//! The value of a resource of any kind.
use crate::cluster_values::ClusterValue;
use crate::endpoint_values::EndpointValue;
use crate::listener_values::ListenerValue;
use crate::route_values::RouteValue;
use xc_base::{Memory, Same, Shared};

/// The value of a resource that passed its checks. Copies share it.
#[derive(Debug, Drop, PartialEq, Eq)]
pub enum Value {
    Listener(Shared<ListenerValue>),
    Route(Shared<RouteValue>),
    Cluster(Shared<ClusterValue>),
    Endpoint(Shared<EndpointValue>),
}

impl Clone for Value {
    ghost use Rattle.std.specs.Prelude.{◌≡◌};

    ghost is_clone = { λ v w. w ≡ v };

    fn clone(&self) -> Result<Value, Memory> {
        match self {
            Value::Listener(value) => Ok(Value::Listener(value.share()?)),
            Value::Route(value) => Ok(Value::Route(value.share()?)),
            Value::Cluster(value) => Ok(Value::Cluster(value.share()?)),
            Value::Endpoint(value) => Ok(Value::Endpoint(value.share()?)),
        }
    }
}

impl Same for Value {
    fn same(&self, other: &Value) -> bool {
        match (self, other) {
            (Value::Listener(a), Value::Listener(b)) => a.same(b),
            (Value::Route(a), Value::Route(b)) => a.same(b),
            (Value::Cluster(a), Value::Cluster(b)) => a.same(b),
            (Value::Endpoint(a), Value::Endpoint(b)) => a.same(b),
            _ => false,
        }
    }
}
