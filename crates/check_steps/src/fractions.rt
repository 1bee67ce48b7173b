//! Fractions of calls (Envoy's FractionalPercent).
ghost use Rattle.check_steps.specs.CallFractions.{fraction_of, part_of, runtime_part};
ghost use Rattle.check_steps.specs.TableSteps.{Tells};

use crate::check_fault::Fault;
use proto_route::{RawFractionalPercent, RawRuntimeFractionalPercent};
use weight_pick::Fraction;
use xc_base::Reason;

/// The fraction whose denominator the number names.
fn fraction_of(part: RawFractionalPercent) -> Result<Fraction, Fault>
    ensures { Tells result (fraction_of part) }
{
    let n = part.numerator;
    match part.denominator {
        0 => Ok(Fraction { n, of: 100 }),
        1 => Ok(Fraction { n, of: 10_000 }),
        2 => Ok(Fraction { n, of: 1_000_000 }),
        _ => Err(Fault::because(Reason::Fraction)),
    }
}

/// The fraction; one that is absent is 0 of a hundred.
pub fn part(fraction: Option<RawFractionalPercent>) -> Result<Fraction, Fault>
    ensures { Tells result (part_of fraction) }
{
    match fraction {
        None => Ok(Fraction { n: 0, of: 100 }),
        Some(part) => fraction_of(part),
    }
}

/// The fraction of a route's calls, if it has one.
pub fn runtime_part(
    fraction: Option<RawRuntimeFractionalPercent>,
) -> Result<Option<Fraction>, Fault>
    ensures { Tells result (runtime_part fraction) }
{
    match fraction {
        None => Ok(None),
        Some(fraction) => {
            let part = part(fraction.default_value)?;
            Ok(Some(part))
        }
    }
}
