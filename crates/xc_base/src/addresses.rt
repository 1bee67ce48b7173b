//! The addresses of endpoints.
ghost use Rattle.std.specs.Prelude.{◌≡◌, Some};
ghost use Rattle.xc_base.specs.Addresses.{address_in};
ghost use Rattle.xc_base.specs.declared.addresses.AddressFault.TheVariants as Fault;

pub mod reading;

use crate::text::Text;
use std::alloc::AllocError;
use std::fmt;
use std::marker::Model;

/// The address of an endpoint, a numeric host and a port, which contracts see as its text: as
/// `10.0.0.1:80` or `[::1]:80`, with the letters in lower case. Two spellings are two addresses.
#[derive(Clone, Debug, Drop, PartialEq, Eq, PartialOrd, Ord)]
pub struct Address {
    text: Text,
}

impl Model for Address {
    ghost use Rattle.std.specs.Prelude.{◌≡◌, List, ℕ, Some};
    ghost use Rattle.xc_base.specs.Addresses.{address_in};

    ghost Value = { List ℕ };

    ghost view = { λ a. a.text };

    ghost invariant = { λ a. address_in a.text ≡ Some a.text };

    ghost inverse = { λ text. record { text = text } };
}

/// Why a text, or a host and a port, is no address.
#[derive(Clone, Copy, Debug, PartialEq, Eq)]
pub enum AddressFault {
    /// It isn't a numeric host with a port of 1 to 65,535.
    NotNumeric,
    /// There was no memory.
    Memory,
}

impl From<AllocError> for AddressFault {
    ghost from_gives = { λ _ e. e ≡ Fault.Memory };

    fn from(_: AllocError) -> Self {
        AddressFault::Memory
    }
}

impl Address {
    /// Its text, which reads as this address.
    pub fn as_str(&self) -> &str
        ensures text { result.now ≡ self.now }
        ensures reads { address_in result.now ≡ Some self.now }
    {
        self.text.as_str()
    }
}

impl fmt::Display for Address {
    ghost output = { λ a. Some a };

    fn fmt<W: fmt::Write>(&self, f: &mut fmt::Formatter<W>) -> fmt::Result {
        let text = self.as_str();
        write!(f, "{text}")
    }
}
