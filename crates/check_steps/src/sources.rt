//! Where resources come from (Envoy's ConfigSource).
ghost use Rattle.std.specs.Prelude.{◌≡◌};
ghost use Rattle.check_steps.specs.Sources.{is_sourced};

use proto_route::RawConfigSource;

/// Whether the source is set: the aggregated stream, or the one that the message itself came from.
pub fn is_sourced(source: Option<RawConfigSource>) -> bool
    ensures { result ≡ is_sourced source }
{
    match source {
        None => false,
        Some(source) => source.one.is_some(),
    }
}
