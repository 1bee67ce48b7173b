//! Fractions.
use proto_wire::{Message, WireFault, fields, last_uint32, read_singular};
use std::alloc::Global;

/// A FractionalPercent: a number of parts of a hundred, ten thousand or a million.
#[derive(Clone, Copy)]
pub struct RawFractionalPercent {
    /// The number of parts.
    pub numerator: u32,
    /// 0 for a hundred, 1 for ten thousand and 2 for a million; other numbers have no meaning.
    pub denominator: u32,
}

/// A RuntimeFractionalPercent.
#[derive(Clone, Copy)]
pub struct RawRuntimeFractionalPercent {
    /// The fraction, since there is no runtime that gives another.
    pub default_value: Option<RawFractionalPercent>,
}

impl Message for RawFractionalPercent {
    ghost use Rattle.proto_route.specs.Fraction.{fractional_percent_of};

    ghost reading = { fractional_percent_of };

    #[tactic(auto, unfolding(crate::specs::Fraction::fractional_percent_of))]
    fn read(alloc: Global, bytes: &[u8]) -> Result<RawFractionalPercent, WireFault> {
        let list = fields(alloc, bytes)?;
        Ok(RawFractionalPercent {
            numerator: last_uint32(&list, 1),
            denominator: last_uint32(&list, 2),
        })
    }
}

impl Message for RawRuntimeFractionalPercent {
    ghost use Rattle.proto_route.specs.Fraction.{runtime_fraction_of};

    ghost reading = { runtime_fraction_of };

    #[tactic(auto, unfolding(crate::specs::Fraction::runtime_fraction_of))]
    fn read(alloc: Global, bytes: &[u8]) -> Result<RawRuntimeFractionalPercent, WireFault> {
        let list = fields(alloc, bytes)?;
        let default_value = read_singular::<RawFractionalPercent>(alloc, &list, 1)?;
        Ok(RawRuntimeFractionalPercent { default_value })
    }
}
