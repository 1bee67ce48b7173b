//! A listener.
ghost use Rattle.std.specs.Prelude.{◌<◌, ◌^◌, length};
ghost use Rattle.proto_wire.specs.Reading.{Gives};
ghost use Rattle.proto_listener.specs.Listener.{listener_of};

use proto_discovery::AnyValue;
use proto_wire::{Message, WireFault, fields, last_text, read_singular};
use std::alloc::Global;
use xc_base::Text;

/// An ApiListener.
#[derive(Drop)]
pub struct RawApiListener {
    /// The connection manager, as a message of any type.
    pub api_listener: Option<AnyValue>,
}

/// A Listener (gRFC A27).
#[derive(Drop)]
pub struct RawListener {
    pub name: Text,
    /// What a client reads of the listener.
    pub api_listener: Option<RawApiListener>,
}

impl Message for RawApiListener {
    ghost use Rattle.proto_listener.specs.Listener.{api_listener_of};

    ghost reading = { api_listener_of };

    #[tactic(auto, unfolding(crate::specs::Listener::api_listener_of))]
    fn read(alloc: Global, bytes: &[u8]) -> Result<RawApiListener, WireFault> {
        let list = fields(alloc, bytes)?;
        let api_listener = read_singular::<AnyValue>(alloc, &list, 1)?;
        Ok(RawApiListener { api_listener })
    }
}

impl Message for RawListener {
    ghost use Rattle.proto_listener.specs.Listener.{listener_of};

    ghost reading = { listener_of };

    #[tactic(auto, unfolding(crate::specs::Listener::listener_of))]
    fn read(alloc: Global, bytes: &[u8]) -> Result<RawListener, WireFault> {
        let list = fields(alloc, bytes)?;
        let name = last_text(alloc, &list, 1)?;
        let api_listener = read_singular::<RawApiListener>(alloc, &list, 19)?;
        Ok(RawListener { name, api_listener })
    }
}

/// Reads a Listener with its messages, but not what its Any holds. `At` comes exactly where the bytes, or those
/// of a message in them, are no list of fields, or a listed text isn't UTF-8. In each message the list of its
/// fields comes first, then the listed fields in the order of their numbers; the place is counted from the
/// start of the message in which it lies.
pub fn read_listener(alloc: Global, bytes: &[u8]) -> Result<RawListener, WireFault>
    requires { length bytes.now < 2 ^ 32 }
    ensures { Gives (λ listener. listener) result (listener_of bytes.now) }
{
    RawListener::read(alloc, bytes)
}
