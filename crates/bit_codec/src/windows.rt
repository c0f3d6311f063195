//! Windows of 64 bits.
ghost use Rattle.std.specs.Prelude.{◌≡◌, ◌≤◌, ◌<◌, ◌+◌, ◌-◌, ◌/◌, ◌%◌, ◌*◌, ◌^◌, length, take, drop, min};
ghost use Rattle.file_model.specs.Bits.{bits, number};
ghost use Rattle.file_model.specs.Samples.{signed};

/// The first eight bytes as a number, the highest first.
#[inline(always)]
pub(crate) fn word(bytes: &[u8]) -> u64
    requires { 8 ≤ length bytes.now }
    ensures { result ≡ number (bits (take 8 bytes.now)) }
{
    u64::from_be_bytes([
        bytes[0], bytes[1], bytes[2], bytes[3], bytes[4], bytes[5], bytes[6], bytes[7],
    ])
}

/// The highest bits of a window as a number.
#[inline(always)]
pub(crate) fn highest(window: u64, count: u32) -> u64
    requires { count < 64 }
    ensures { result ≡ window / 2 ^ (64 - count) }
{
    // a shift by 64 is none, so it goes in two steps
    window >> 1 >> (63 - count)
}

/// A number of so many bits as one with a sign.
#[inline(always)]
pub(crate) fn with_sign(value: u32, count: u32) -> i32
    requires width { count ≤ 32 }
    requires small { value < 2 ^ count }
    ensures { result ≡ signed count value }
{
    let value = u64::from(value);
    if value < 1u64 << count.saturating_sub(1) {
        value as i32
    } else {
        // the complement of what is missing to the power of two, less one
        !(((1u64 << count) - 1 - value) as i32)
    }
}

/// The Rice value on top of a window that has its unary quotient, the one behind it and its low
/// bits.
#[inline(always)]
pub(crate) fn rice_value(window: u64, quotient: u32, low: u32) -> u64
    requires few { low ≤ 30 }
    requires width { quotient + 1 + low ≤ 64 }
    requires one { 2 ^ low ≤ window / 2 ^ (63 - quotient - low) }
    requires no_more { window / 2 ^ (63 - quotient - low) < 2 * 2 ^ low }
    ensures { result ≡ quotient * 2 ^ low + (window / 2 ^ (63 - quotient - low) - 2 ^ low) }
{
    let one_and_low = window >> (63 - quotient - low);
    (u64::from(quotient) << low) + (one_and_low - (1 << low))
}

/// A Rice value of its parts, held to the greatest u64.
pub(crate) fn joined(quotient: u64, low: u32, rest: u32) -> u64
    requires few { low ≤ 30 }
    requires small { rest < 2 ^ low }
    ensures { result ≡ min (quotient * 2 ^ low + rest) (2 ^ 64 - 1) }
{
    // the high part is tested before it is shifted
    if quotient > u64::MAX >> low {
        u64::MAX
    } else {
        (quotient << low) + u64::from(rest)
    }
}
