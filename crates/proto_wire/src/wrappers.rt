//! The messages that wrap a number or a bool, so that its absence is told apart from 0 or false.
use crate::field::WireFault;
use crate::field_reader::fields;
use crate::nested::Message;
use crate::values::{last_bool, last_uint32};
use std::alloc::Global;

/// A UInt32Value.
impl Message for u32 {
    ghost use Rattle.proto_wire.specs.Wrappers.{uint32_value};

    ghost reading = { uint32_value };

    #[tactic(auto, unfolding(crate::specs::Wrappers::uint32_value))]
    fn read(alloc: Global, bytes: &[u8]) -> Result<u32, WireFault> {
        let list = fields(alloc, bytes)?;
        Ok(last_uint32(&list, 1))
    }
}

/// A BoolValue.
impl Message for bool {
    ghost use Rattle.proto_wire.specs.Wrappers.{bool_value};

    ghost reading = { bool_value };

    #[tactic(auto, unfolding(crate::specs::Wrappers::bool_value))]
    fn read(alloc: Global, bytes: &[u8]) -> Result<bool, WireFault> {
        let list = fields(alloc, bytes)?;
        Ok(last_bool(&list, 1))
    }
}
