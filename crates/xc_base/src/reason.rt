//! Why a resource, a name, a configuration or a call is refused.
ghost use Rattle.std.specs.Prelude.{◌≡◌, Some};
ghost use Rattle.xc_base.specs.Reasons.{reason_word};

use std::fmt;

/// The reason of a refusal. Each prints as one word.
#[derive(Clone, Copy, Debug, PartialEq, Eq, PartialOrd, Ord)]
pub enum Reason {
    /// A message can't be read.
    Unreadable,
    /// A name that is needed is empty.
    NoName,
    /// A resource of this name stood before in the same response.
    Second,
    /// A message has another type than is wanted.
    WrongType,
    /// A listener names no routes.
    NoRoutes,
    /// A config source is neither ads nor self.
    ConfigSource,
    /// A domain is empty or has a `*` in its midst.
    Domain,
    /// A route has no path test.
    NoPath,
    /// A pattern can't be built.
    BadPattern,
    /// A header matcher has no test.
    NoHeaderMatch,
    /// A fraction's denominator is none of the three.
    Fraction,
    /// Weights sum to 0 or to more than 32 bits.
    Weights,
    /// A virtual host names more than 1,024 clusters.
    ManyClusters,
    /// A cluster is of a kind that isn't played.
    ClusterKind,
    /// An aggregate has no child.
    NoClusters,
    /// A cluster's balancing policy isn't round robin.
    LbPolicy,
    /// An address isn't numeric, or its port isn't 1 to 65,535.
    Address,
    /// A locality stands twice in a priority.
    LocalityTwice,
    /// A priority is missing below a greater one.
    PriorityGap,
    /// A name has a `%` without two hexadecimal digits.
    BadEscape,
    /// A name hasn't the form of an `xdstp:` name, or is of another type.
    BadType,
    /// A name's authority isn't in the bootstrap.
    BadAuthority,
    /// A resource was deleted, or never came.
    Absent,
    /// No virtual host's domain is met.
    NoHost,
    /// A chain of clusters is too long, or loops.
    Depth,
    /// A priority has no address.
    NoEndpoints,
    /// No endpoint of a priority can be reached.
    Failing,
}

impl Reason {
    /// The word that it prints as.
    pub fn word(self) -> &'static str
        ensures { result.now ≡ reason_word self }
    {
        match self {
            Reason::Unreadable => "unreadable",
            Reason::NoName => "no-name",
            Reason::Second => "second",
            Reason::WrongType => "wrong-type",
            Reason::NoRoutes => "no-routes",
            Reason::ConfigSource => "config-source",
            Reason::Domain => "domain",
            Reason::NoPath => "no-path",
            Reason::BadPattern => "bad-pattern",
            Reason::NoHeaderMatch => "no-header-match",
            Reason::Fraction => "fraction",
            Reason::Weights => "weights",
            Reason::ManyClusters => "many-clusters",
            Reason::ClusterKind => "cluster-kind",
            Reason::NoClusters => "no-clusters",
            Reason::LbPolicy => "lb-policy",
            Reason::Address => "address",
            Reason::LocalityTwice => "locality-twice",
            Reason::PriorityGap => "priority-gap",
            Reason::BadEscape => "bad-escape",
            Reason::BadType => "bad-type",
            Reason::BadAuthority => "bad-authority",
            Reason::Absent => "absent",
            Reason::NoHost => "no-host",
            Reason::Depth => "depth",
            Reason::NoEndpoints => "no-endpoints",
            Reason::Failing => "failing",
        }
    }
}

impl fmt::Display for Reason {
    ghost output = { λ r. Some (reason_word r) };

    fn fmt<W: fmt::Write>(&self, f: &mut fmt::Formatter<W>) -> fmt::Result {
        let word = self.word();
        write!(f, "{word}")
    }
}
