//! Wide sums and products, and what is left of them in whole units of 10^-14.
ghost use Rattle.std.specs.Prelude.{◌≡◌, ◌≤◌, ◌<◌, ◌^◌, ℤ, pos, ◌*ℤ◌, ◌+ℤ◌, ◌-ℤ◌, unsigned_abs};
ghost use Rattle.std.specs.Int.{int_div_euclid};
ghost use Rattle.sound_model.specs.Weighted.{held};

const UNIT: i64 = 100_000_000_000_000;

/// 2^109 over 10^14, rounded down.
const RECIPROCAL: i64 = 6_490_371_073_168_534_535;

#[inline(always)]
pub fn product(coefficient: i64, value: i64) -> i128
    ensures { result ≡ coefficient *ℤ value }
{
    i128::from(coefficient) * i128::from(value)
}

#[inline(always)]
pub fn sum(a: i128, b: i128) -> i128
    requires a { unsigned_abs a < 2 ^ 102 }
    requires b { unsigned_abs b < 2 ^ 102 }
    ensures { result ≡ a +ℤ b }
{
    a + b
}

#[inline(always)]
pub fn difference(a: i128, b: i128) -> i128
    requires a { unsigned_abs a < 2 ^ 102 }
    requires b { unsigned_abs b < 2 ^ 102 }
    ensures { result ≡ a -ℤ b }
{
    a - b
}

/// The sum in whole units, rounded down.
///
/// A division of 128 bits takes several times as long as all else in a section. So the sum's upper part
/// is multiplied by a reciprocal, and the remainder tells whether that was right. Once in some six
/// thousand sums it is one too low, and only then the sum is divided.
#[inline(always)]
pub fn whole_units(sum: i128) -> i64
    requires { unsigned_abs sum < 2 ^ 98 }
    ensures value { result ≡ int_div_euclid sum (pos (10 ^ 14)) }
    ensures small { unsigned_abs result < 2 ^ 52 }
{
    let guess = near_whole_units(sum);
    let rest = rest_of(sum, guess);
    if 0 <= rest && rest < i128::from(UNIT) {
        guess
    } else {
        divided(sum)
    }
}

/// What is left of a sum beyond so many units.
#[inline(always)]
fn rest_of(sum: i128, units: i64) -> i128
    requires { unsigned_abs sum < 2 ^ 98 }
    ensures { result ≡ sum -ℤ (units *ℤ pos (10 ^ 14)) }
{
    sum - product(units, UNIT)
}

/// Nearly the sum in whole units. No proof needs to know how near.
#[inline(always)]
fn near_whole_units(sum: i128) -> i64
    requires { unsigned_abs sum < 2 ^ 98 }
{
    (product(RECIPROCAL, (sum >> 35) as i64) >> 74) as i64
}

#[cold]
fn divided(sum: i128) -> i64
    requires { unsigned_abs sum < 2 ^ 98 }
    ensures { result ≡ int_div_euclid sum (pos (10 ^ 14)) }
{
    sum.div_euclid(i128::from(UNIT)) as i64
}

/// The value, held to the range from -2^50 to 2^50.
#[inline(always)]
pub fn held_output(value: i64) -> i64
    ensures value { result ≡ held (2 ^ 50) value }
    ensures small { unsigned_abs result ≤ 2 ^ 50 }
{
    (-(1 << 50)).max((1i64 << 50).min(value))
}
