//! The choices that a draw makes: by weight, and by a fraction.
ghost use Rattle.std.specs.Prelude.{◌≡◌, ℕ, List, ◌-◌, ◌<◌, ◌^◌, ◌↔◌, length, slice_index, nat_lt, position, IfOk, OnOk};
ghost use Rattle.weight_pick.specs.Fractions.{fraction_met};
ghost use Rattle.weight_pick.specs.Weights.{cumulated, place_by_weight, AreWeights, AreSums};

use crate::fraction::Fraction;
use crate::weight_fault::WeightFault;
use std::alloc::Global;
use xc_base::List;

/// The sums of the weights: each weight together with all before it (gRFC A28). It answers
/// `OutOfRange` exactly where the weights sum to 0 or to more than 4,294,967,295, and `Memory` where
/// there was no memory.
pub fn cumulate(alloc: Global, weights: &[u32]) -> Result<List<u64>, WeightFault>
    requires few { length weights.now < 2 ^ 31 }
    ensures sums { IfOk result (λ sums. sums ≡ cumulated weights.now) }
    ensures in_range { OnOk result (AreWeights weights.now) }
    ensures out_of_range { (result ≡ Err WeightFault.OutOfRange) ↔ (AreWeights weights.now → ⊥) }
{
    let total: u64 = weights.iter().map(|weight| u64::from(*weight)).sum();
    if total == 0 || total > u64::from(u32::MAX) {
        return Err(WeightFault::OutOfRange);
    }
    let mut sums = List::new(alloc);
    let mut sum = 0u64;
    for weight in weights {
        sum += u64::from(*weight);
        sums.push(sum)?;
    }
    Ok(sums)
}

/// The place that a draw chooses, from 0: the least one whose sum is above the draw, which is brought
/// from 32 bits to a number below the last sum (gRFC A28). It takes no memory.
pub fn at_weight(sums: &List<u64>, draw: u32) -> u32
    requires sums { AreSums sums.now }
    ensures place { (weights : List ℕ) → sums.now ≡ cumulated weights → result ≡ place_by_weight weights draw }
    ensures within { result < length sums.now }
{
    let sums = sums.as_slice();
    let target = u64::from(draw) * last_of(sums) >> 32;
    match first_above(sums, target) {
        Some(place) => place as u32,
        None => 0,
    }
}

/// The last of the sums, which is that of all weights.
fn last_of(sums: &[u64]) -> u64
    requires { 0 < length sums.now }
    ensures { result ≡ slice_index sums.now (length sums.now - 1) }
{
    sums[sums.len() - 1]
}

/// The first place whose sum is above the target.
fn first_above(sums: &[u64], target: u64) -> Option<usize>
    ensures { result ≡ position (λ s. nat_lt target s) sums.now }
{
    sums.iter().position(|sum| target < *sum)
}

/// Whether a draw is among those that a fraction takes (Envoy's `FractionalPercent`): brought from 32
/// bits to a number below `of`, it is below `n`. It takes no memory.
pub fn fraction_met(f: Fraction, draw: u32) -> bool
    ensures { result ≡ fraction_met f draw }
{
    u64::from(draw) * u64::from(f.of) / (1 << 32) < u64::from(f.n)
}
