//! A message of any type.
use proto_wire::{Message, WireFault, fields, last_bytes, last_text};
use std::alloc::Global;
use xc_base::{List, Memory, Text};

/// A message of any type (`google.protobuf.Any`).
#[derive(Drop)]
pub struct AnyValue {
    /// The URL of its type, by which `kind_of` tells the kind of a resource.
    pub type_url: Text,
    /// The bytes of the message.
    pub value: List<u8>,
}

impl AnyValue {
    ghost use Rattle.std.specs.Prelude.{◌≡◌, IfOk};
    ghost use Rattle.proto_discovery.specs.Any.{empty_any};

    /// An Any with two empty fields, as one that is absent is read. It takes no memory.
    pub fn empty(alloc: Global) -> AnyValue
        ensures { result ≡ empty_any }
    {
        AnyValue {
            type_url: Text::new(),
            value: List::new(alloc),
        }
    }

    /// A copy of the Any.
    pub fn copy(&self, alloc: Global) -> Result<AnyValue, Memory>
        ensures { IfOk result (λ any. any ≡ self.now) }
    {
        let type_url = self.type_url.clone()?;
        let mut value = List::new(alloc);
        value.extend_from_slice(self.value.as_slice())?;
        Ok(AnyValue { type_url, value })
    }
}

impl Message for AnyValue {
    ghost use Rattle.proto_discovery.specs.Any.{any_of};

    ghost reading = { any_of };

    #[tactic(auto, unfolding(crate::specs::Any::any_of))]
    fn read(alloc: Global, bytes: &[u8]) -> Result<AnyValue, WireFault> {
        let list = fields(alloc, bytes)?;
        let type_url = last_text(alloc, &list, 1)?;
        let mut value = List::new(alloc);
        value.extend_from_slice(last_bytes(&list, 2))?;
        Ok(AnyValue { type_url, value })
    }
}
