//! The range of windows.
ghost use Rattle.std.specs.Prelude.{◌≡◌, ◌^◌, ◌*◌, ◌<◌, ◌≤◌, ℕ, All, length, IfOk};
ghost use Rattle.std.specs.List.Sorted.{IsNonDecreasing};
ghost use Rattle.sound_model.specs.Ranges.{percentile_place_of, IsRangeWithin, IsRange};

use crate::gates::gated_windows;
use db_table::{hundredths, level};
use lib_base::Memory;
use std::alloc::Global;

/// The place of a percentile among `n` numbers in ascending order, counted from 0: the nearest one,
/// and half a place upwards. It takes no memory.
pub fn percentile_place(n: u64, p: u64) -> u64
    requires some { 1 ≤ n }
    requires few { n ≤ 2 ^ 25 }
    requires percent { p ≤ 100 }
    ensures value { result ≡ percentile_place_of n p }
    ensures within { result < n }
{
    (2 * (n - 1) * p + 100) / 200
}

/// The loudness range of windows in hundredths of LU (EBU Tech 3342), absent exactly where no window
/// passes the gates.
pub fn range(alloc: Global, windows: &[u128]) -> Result<Option<i32>, Memory>
    requires few { length windows.now ≤ 2 ^ 25 }
    requires small { All (λ (z : ℕ). z < 2 ^ 87) windows.now }
    ensures { IfOk result (λ range. IsRange windows.now range) }
{
    let mut gated = gated_windows(alloc, windows)?;
    gated.sort_unstable();
    Ok(range_of_sorted(&gated))
}

/// The range of windows that passed the gates and stand in ascending order.
fn range_of_sorted(windows: &[u128]) -> Option<i32>
    requires few { length windows.now ≤ 2 ^ 25 }
    requires ascends { IsNonDecreasing windows.now }
    requires above_0 { All (λ (z : ℕ). 0 < z) windows.now }
    requires small { All (λ (z : ℕ). z < 2 ^ 87) windows.now }
    ensures { IsRangeWithin windows.now result }
{
    if windows.is_empty() {
        return None;
    }
    let count = windows.len() as u64;
    let low = windows[percentile_place(count, 10) as usize];
    let high = windows[percentile_place(count, 95) as usize];
    Some(hundredths(level(high, low)))
}
