//! Numbers as text.
ghost use Rattle.std.specs.Prelude.{◌≡◌, ◌≢◌, ◌==◌, ◌||◌, ◌&&◌, ◌<◌, ◌^◌, ℕ, nat_lt, length, slice_index, MatchOption};
ghost use Rattle.std.specs.Fmt.{decimal};
ghost use Rattle.xc_base.specs.Numbers.{number_of, NumbersAreDecimal};

/// The number that the text writes in decimal digits, without a sign, and without a leading zero
/// unless it is `0` itself. None exactly where the text isn't such a number below 2^64.
pub fn read_number(text: &str) -> Option<u64>
    ensures value { result ≡ number_of text.now }
    ensures number { MatchOption result ((n : ℕ) → n < 2 ^ 64 → text.now ≢ decimal n) (λ n. text.now ≡ decimal n) }
{
    if is_signed_or_padded(text) {
        return None;
    }
    text.parse().ok()
}

/// Whether the text begins with a plus sign, or with a zero and has more bytes.
fn is_signed_or_padded(text: &str) -> bool
    ensures { result ≡ ((slice_index text.now 0 == 43) || (nat_lt 1 (length text.now) && (slice_index text.now 0 == 48))) }
{
    text.starts_with('+') || text.len() > 1 && text.starts_with('0')
}

/// The law of numbers: a text has at most one number, the one whose decimal text it is. The call does nothing.
pub fn numbers_are_decimal()
    ensures { NumbersAreDecimal }
{}
