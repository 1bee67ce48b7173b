//! Varints: numbers of one to ten bytes.
ghost use Rattle.std.specs.Prelude.{◌≡◌, ◌<◌, ◌≤◌, ◌+◌, ◌-◌, ◌*◌, length, IfSome};
ghost use Rattle.proto_wire.specs.View.{seen};
ghost use Rattle.proto_wire.specs.Wire.{varint_within, varint_at, fits, with_rest};

/// The most bytes that a varint has.
pub(crate) const MOST_VARINT_BYTES: u32 = 10;

/// The number whose seven low bits are those of the byte, and whose other bits are the high number. None where it
/// is 2^64 or more.
fn onto_low(byte: u8, high: u64) -> Option<u64>
    requires { 128 ≤ byte }
    ensures { result ≡ fits (byte - 128 + 128 * high) }
{
    let high = high.checked_mul(128)?;
    high.checked_add(u64::from(byte - 128))
}

/// The same number, with the bytes after it.
fn onto_low_before(byte: u8, high: u64, rest: &[u8]) -> Option<(u64, &[u8])>
    requires { 128 ≤ byte }
    ensures value { seen result ≡ with_rest rest.now (fits (byte - 128 + 128 * high)) }
    ensures rest { IfSome result (λ r. r.1.now ≡ rest.now) }
{
    match onto_low(byte, high) {
        Some(value) => Some((value, rest)),
        None => None,
    }
}

/// A varint of at most n bytes, and the bytes after it.
fn varint_within(n: u32, bytes: &[u8]) -> Option<(u64, &[u8])>
    ensures value { seen result ≡ varint_within n bytes.now }
    ensures shorter { IfSome result (λ r. length r.1.now < length bytes.now) }
{
    if n == 0 {
        return None;
    }
    match bytes {
        [] => None,
        [first, rest @ ..] => {
            if *first < 128 {
                return Some((u64::from(*first), rest));
            }
            match varint_within(n - 1, rest) {
                Some((high, rest)) => onto_low_before(*first, high, rest),
                None => None,
            }
        }
    }
}

/// The varint at the beginning, and the bytes after it. A varint has at most ten bytes, whatever its
/// spelling, and is below 2^64.
#[tactic(auto, unfolding(crate::specs::Wire::varint_at))]
pub fn varint(bytes: &[u8]) -> Option<(u64, &[u8])>
    ensures value { seen result ≡ varint_at bytes.now }
    ensures shorter { IfSome result (λ r. length r.1.now < length bytes.now) }
{
    varint_within(MOST_VARINT_BYTES, bytes)
}
