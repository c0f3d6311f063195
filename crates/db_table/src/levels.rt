//! Levels, by powers of ten and a search of the table.
ghost use Rattle.std.specs.Prelude.{◌≡◌, ◌+◌, ◌-◌, ◌*◌, ◌<◌, ◌≤◌, ◌^◌, ℕ, ℤ, pos, neg_ℤ, ◌+ℤ◌, ◌<ℤ◌, ◌≤ℤ◌};
ghost use Rattle.sound_model.specs.Levels.{IsLevel, entry, hundredths, bucket_of};

use crate::table::{PLACES, entry};

/// The level of the ratio `a / b` in half hundredths of a decibel, rounded down: 2000 for each power
/// of ten that the ratio reaches, and the greatest place of the table within what is left. It takes
/// no memory.
pub fn level(a: u128, b: u128) -> i32
    requires a_above_0 { 0 < a }
    requires a_below { a < 2 ^ 92 }
    requires b_above_0 { 0 < b }
    requires b_below { b < 2 ^ 92 }
    ensures is_level { IsLevel a b result }
    ensures low { neg_ℤ (pos 56000) ≤ℤ result }
    ensures high { result <ℤ pos 56000 }
{
    if b <= a {
        let power = (a / b).ilog10();
        2000 * power as i32 + i32::from(greatest_place(a, b * 10u128.pow(power)))
    } else {
        // the least power of ten that lifts `a` to `b` or above
        let power = ((b - 1) / a).ilog10() + 1;
        i32::from(greatest_place(a * 10u128.pow(power), b)) - 2000 * power as i32
    }
}

/// The greatest place whose ratio is within `a / b`, found by halving the table.
fn greatest_place(a: u128, b: u128) -> u16
    requires ordered { b ≤ a }
    requires a_below { a < 10 * 2 ^ 92 }
    requires b_below { b < 2 ^ 92 }
    ensures is_place { result < 2000 }
    ensures within { entry result * b ≤ a * 10 ^ 9 }
    ensures greatest { (k : ℕ) → result < k → k < 2000 → a * 10 ^ 9 < entry k * b }
{
    let limit = a * 1_000_000_000;
    let mut low = 0;
    let mut high = PLACES;
    while high - low > 1 {
        let middle = (low + high) / 2;
        if u128::from(entry(middle)) * b <= limit {
            low = middle;
        } else {
            high = middle;
        }
    }
    low
}

/// A level in hundredths of a decibel, to the nearest one and half of one upwards. It takes no memory.
pub fn hundredths(level: i32) -> i32
    requires { level <ℤ pos (2 ^ 31 - 1) }
    ensures value { result ≡ hundredths level }
    ensures at_least { level ≤ℤ (result +ℤ result) }
    ensures at_most { (result +ℤ result) ≤ℤ (level +ℤ pos 1) }
{
    (level + 1).div_euclid(2)
}

/// The bucket of a level: a tenth of a decibel wide, from 0 to 1023, the first one with all levels
/// below -69.9 dB. It takes no memory.
pub fn bucket(level: i32) -> u16
    ensures value { result ≡ bucket_of level }
    ensures below { result < 1024 }

    // It doesn't fall where a ratio rises.
    ensures rises { (a b c d : ℕ) (lower : ℤ) → IsLevel a b level → IsLevel c d lower
        → c * b ≤ a * d → bucket_of lower ≤ result }
{
    (i64::from(level) + 14_000).div_euclid(20).clamp(0, 1023) as u16
}
