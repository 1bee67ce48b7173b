//! Fates of keys.
ghost use Rattle.std.specs.Prelude.{◌≡◌};
ghost use Rattle.xds_cache.specs.KeptFates.{reason_of, shown};

use xc_base::{NameFault, Reason, Same};
use xds_config::Value;

/// What is known of a watched key.
#[derive(Drop)]
pub enum Known {
    /// Nothing yet.
    Wanted,
    /// The last valid resource.
    Value(Value),
    /// Why the last resource was refused, where no valid one stands.
    Invalid(Reason),
    /// That there is no such resource.
    Absent,
}

impl Known {
    /// The same, lent.
    pub fn fate(&self) -> Fate<'_>
        ensures { shown result ≡ self.now }
    {
        match self {
            Known::Wanted => Fate::Wanted,
            Known::Value(value) => Fate::Value(value),
            Known::Invalid(reason) => Fate::Invalid(reason),
            Known::Absent => Fate::Absent,
        }
    }
}

impl Same for Known {
    fn same(&self, other: &Known) -> bool {
        match (self, other) {
            (Known::Wanted, Known::Wanted) | (Known::Absent, Known::Absent) => true,
            (Known::Value(value), Known::Value(known)) => value.same(known),
            (Known::Invalid(reason), Known::Invalid(known)) => reason.same(known),
            _ => false,
        }
    }
}

/// The fate of a key, lent by the cache.
#[derive(Clone, Copy)]
pub enum Fate<'a> {
    /// Nothing is known of it.
    Wanted,
    /// The last valid resource that came since the key is watched.
    Value(&'a Value),
    /// Why the last resource was refused, where no valid one stands, or why the key has no home.
    Invalid(&'a Reason),
    /// That the resource was deleted or never came.
    Absent,
}

/// The reason for which a name without a home is refused (gRFC A47).
pub fn reason_of(fault: NameFault) -> &'static Reason
    ensures { result.now ≡ reason_of fault }
{
    match fault {
        NameFault::BadEscape => &Reason::BadEscape,
        NameFault::WrongType => &Reason::BadType,
        NameFault::UnknownAuthority => &Reason::BadAuthority,
    }
}
