//! A field of a message, and why a message can't be read.
ghost use Rattle.std.specs.Prelude.{◌≡◌};
ghost use Rattle.proto_wire.specs.declared.field.WireFault.TheVariants.{Memory};

use std::alloc::{AllocError, AllocFailed};

/// What a field holds, by its wire type.
#[derive(Clone, Copy)]
pub enum Body<'a> {
    /// Wire type 0.
    Varint(u64),
    /// Wire type 1: eight bytes, the low one first.
    Eight(u64),
    /// Wire type 2: a length and that many bytes, of a text, of bytes or of a message.
    Bytes(&'a [u8]),
    /// Wire type 5: four bytes, the low one first.
    Four(u32),
}

/// A field of a message.
#[derive(Clone, Copy)]
pub struct Field<'a> {
    /// The place in the message at which the field begins, in bytes from 0.
    pub at: u32,
    /// Its number, 1 to 536,870,911.
    pub number: u32,
    /// What it holds.
    pub body: Body<'a>,
}

/// A member of a oneof: its field number, with the wire type of its values.
#[derive(Clone, Copy)]
pub enum Member {
    /// A number or a bool.
    Varint(u32),
    /// A text, bytes or a message.
    Bytes(u32),
}

/// Why a message can't be read.
#[derive(Clone, Copy, Debug, PartialEq, Eq)]
pub enum WireFault {
    /// The place of the field that can't be read, or whose text isn't UTF-8, in bytes from 0.
    At(u32),
    /// There was no memory.
    Memory,
}

impl From<AllocError> for WireFault {
    ghost from_gives = { λ _ e. e ≡ Memory };

    fn from(_: AllocError) -> Self {
        WireFault::Memory
    }
}

impl<T: Drop> From<AllocFailed<T>> for WireFault {
    ghost from_gives = { λ _ e. e ≡ Memory };

    fn from(_: AllocFailed<T>) -> Self {
        WireFault::Memory
    }
}

impl<'a> Field<'a> {
    ghost use Rattle.std.specs.Prelude.{◌≡◌};
    ghost use Rattle.proto_wire.specs.FieldValues.{uint_at, bytes_at, is_of};
    ghost use Rattle.proto_wire.specs.View.{view, seen_bytes};

    /// The varint that the field says of the number.
    pub fn uint(&self, number: u32) -> Option<u64>
        ensures { result ≡ uint_at number (view self.now) }
    {
        if self.number != number {
            return None;
        }
        match self.body {
            Body::Varint(v) => Some(v),
            Body::Eight(_) | Body::Bytes(_) | Body::Four(_) => None,
        }
    }

    /// The bytes that the field says of the number.
    pub fn bytes(&self, number: u32) -> Option<&'a [u8]>
        ensures { seen_bytes result ≡ bytes_at number (view self.now) }
    {
        if self.number != number {
            return None;
        }
        match self.body {
            Body::Bytes(bytes) => Some(bytes),
            Body::Varint(_) | Body::Eight(_) | Body::Four(_) => None,
        }
    }

    /// Whether the field is an occurrence of the member.
    pub fn is_of(&self, member: &Member) -> bool
        ensures { result ≡ is_of (view self.now) member.now }
    {
        match *member {
            Member::Varint(number) => {
                self.number == number && matches!(self.body, Body::Varint(_))
            }
            Member::Bytes(number) => self.number == number && matches!(self.body, Body::Bytes(_)),
        }
    }
}
