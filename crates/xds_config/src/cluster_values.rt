//! The value of a Cluster resource (gRFC A27, A37).
use xc_base::{List, Same, Text};

/// A cluster, under its canonical name.
#[derive(Debug, Drop, PartialEq, Eq)]
pub struct ClusterValue {
    pub name: Text,
    pub shape: Shape,
}

/// What a cluster is.
#[derive(Debug, Drop, PartialEq, Eq)]
pub enum Shape {
    /// It has the endpoints of the Endpoint resource of this name, or of the cluster's own name where this
    /// one is empty.
    Eds { service: Text },
    /// It stands for other clusters, the preferred ones first.
    Aggregate { clusters: List<Text> },
}

impl Same for ClusterValue {
    fn same(&self, other: &ClusterValue) -> bool {
        self.name.same(&other.name) && self.shape.same(&other.shape)
    }
}

impl Same for Shape {
    fn same(&self, other: &Shape) -> bool {
        match (self, other) {
            (Shape::Eds { service: a }, Shape::Eds { service: b }) => a.same(b),
            (Shape::Aggregate { clusters: a }, Shape::Aggregate { clusters: b }) => a.same(b),
            _ => false,
        }
    }
}
