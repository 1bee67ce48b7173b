//! The wrapper that names a resource.
ghost use Rattle.std.specs.Prelude.{◌≡◌, ◌<◌, ◌≤◌, ◌^◌, length, IfOk};
ghost use Rattle.proto_wire.specs.Reading.{Gives};
ghost use Rattle.proto_discovery.specs.Wrapper.{name_of, wrapped, unwrapped};

use crate::any::AnyValue;
use crate::type_urls::WRAPPER_URL;
use proto_wire::{WireFault, fields, last_text, read_singular};
use std::alloc::Global;
use xc_base::Text;

/// A resource with the name that its wrapper gives it.
#[derive(Drop)]
pub struct Unwrapped {
    /// None where it has no wrapper, or the wrapper's name is empty.
    pub name: Option<Text>,
    /// The resource itself.
    pub inner: AnyValue,
}

/// The name, unless it is empty.
fn name_of(name: Text) -> Option<Text>
    ensures { result ≡ name_of name }
{
    if name.is_empty() { None } else { Some(name) }
}

/// What the bytes of a wrapper say.
#[tactic(auto, unfolding(crate::specs::Wrapper::wrapped))]
fn read_wrapped(alloc: Global, bytes: &[u8]) -> Result<Unwrapped, WireFault>
    requires { length bytes.now < 2 ^ 32 }
    ensures reading { Gives (λ unwrapped. unwrapped) result (wrapped bytes.now) }
    ensures short { IfOk result (λ unwrapped. length unwrapped.inner.value ≤ length bytes.now) }
{
    let list = fields(alloc, bytes)?;
    let _ = last_text(alloc, &list, 1)?;
    let resource = read_singular::<AnyValue>(alloc, &list, 2)?;
    let name = last_text(alloc, &list, 3)?;
    Ok(Unwrapped {
        name: name_of(name),
        inner: resource.unwrap_or(AnyValue::empty(alloc)),
    })
}

/// Takes a resource out of its wrapper (Envoy's xDS transport: `Resource`). One that isn't of the wrapper's type
/// stays as it is, without a name; a wrapper without a resource holds an Any with two empty fields. `At` comes
/// exactly where a wrapper can't be read, and its place is counted from the wrapper's start.
#[tactic(auto, unfolding(crate::specs::Wrapper::unwrapped, crate::specs::TypeUrls::wrapper_url))]
pub fn unwrap_resource(alloc: Global, any: &AnyValue) -> Result<Unwrapped, WireFault>
    requires { length any.now.value < 2 ^ 32 }
    ensures reading { Gives (λ unwrapped. unwrapped) result (unwrapped any.now) }
    // What it holds is no longer than it.
    ensures short { IfOk result (λ unwrapped. length unwrapped.inner.value ≤ length any.now.value) }
{
    if any.type_url.as_str() == WRAPPER_URL {
        return read_wrapped(alloc, any.value.as_slice());
    }
    Ok(Unwrapped {
        name: None,
        inner: any.copy(alloc)?,
    })
}
