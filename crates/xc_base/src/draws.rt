//! The random choices of a call, which all follow from its word.
ghost use Rattle.std.specs.Prelude.{◌≡◌};
ghost use Rattle.xc_base.specs.Draws.{draw};

/// The odd number nearest to 2^64 divided by the golden ratio, as in SplitMix64: the words of calls are spread by its steps.
pub const GOLDEN: u64 = 0x9E37_79B9_7F4A_7C15;

/// Draw number k of a call with the word w: the high 32 bits of `w + k * GOLDEN`, as a 64-bit sum.
pub fn draw(w: u64, k: u32) -> u32
    ensures { result ≡ draw w k }
{
    let mixed = w.wrapping_add(GOLDEN.wrapping_mul(u64::from(k)));
    (mixed >> 32) as u32
}
