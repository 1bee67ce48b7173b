//! What a stream is to ask for.
ghost use Rattle.std.specs.Prelude.{◌≡◌, IfOk};
ghost use Rattle.ads_stream.specs.StreamSteps.{names_of};

use xc_base::{Kind, List, Memory, Shared, Text};

/// The names that are watched at an authority, by their kind. Each list is sorted by bytes and has a
/// name once. The requests that ask for them share the lists.
#[derive(Drop)]
pub struct Names {
    /// The Listener resources.
    pub listener: Shared<List<Text>>,
    /// The Route resources.
    pub route: Shared<List<Text>>,
    /// The Cluster resources.
    pub cluster: Shared<List<Text>>,
    /// The Endpoint resources.
    pub endpoint: Shared<List<Text>>,
}

impl Names {
    /// The names of one kind.
    pub fn of(&self, kind: Kind) -> &Shared<List<Text>>
        ensures { result.now ≡ names_of self.now kind }
    {
        match kind {
            Kind::Listener => &self.listener,
            Kind::Route => &self.route,
            Kind::Cluster => &self.cluster,
            Kind::Endpoint => &self.endpoint,
        }
    }

    /// The same names once more. No name is copied; it fails only where a count of owners is at its end.
    pub fn share(&self) -> Result<Names, Memory>
        ensures { IfOk result (λ names. names ≡ self.now) }
    {
        Ok(Names {
            listener: self.listener.share()?,
            route: self.route.share()?,
            cluster: self.cluster.share()?,
            endpoint: self.endpoint.share()?,
        })
    }
}
