//! Where resources come from.
use proto_wire::{Member, Message, WireFault, fields, if_set, occurrences, oneof_of};
use std::alloc::Global;

/// A source of resources. What its message holds is unread.
#[derive(Clone, Copy)]
pub enum RawConfigSourceOne {
    /// `ads`: the one aggregated stream.
    Ads,
    /// `self`: the server from which the message itself came.
    Own,
}

/// A ConfigSource.
#[derive(Clone, Copy)]
pub struct RawConfigSource {
    /// The source that is set, if one is.
    pub one: Option<RawConfigSourceOne>,
}

impl Message for RawConfigSource {
    ghost use Rattle.proto_route.specs.ConfigSource.{config_source_of};

    ghost reading = { config_source_of };

    #[tactic(auto, unfolding(crate::specs::ConfigSource::config_source_of))]
    fn read(alloc: Global, bytes: &[u8]) -> Result<RawConfigSource, WireFault> {
        let list = fields(alloc, bytes)?;
        let sources = occurrences(alloc, &list, &[Member::Bytes(3), Member::Bytes(5)])?;
        let set = oneof_of(&sources, &[3, 5]);
        let one = if_set(set, 3, RawConfigSourceOne::Ads).or(if_set(
            set,
            5,
            RawConfigSourceOne::Own,
        ));
        Ok(RawConfigSource { one })
    }
}
