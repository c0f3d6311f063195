//! The gates of the loudness range.
ghost use Rattle.std.specs.Prelude.{◌≡◌, ◌^◌, ◌<◌, ◌≤◌, ℕ, All, filter, length, sum, IfOk};
ghost use Rattle.sound_model.specs.Ranges.{is_window_audible, is_window_near, gated_windows};

use lib_base::{FULL_POWER, Memory};
use std::alloc::Global;

/// The windows that pass both gates: of those from the absolute threshold on, those from the
/// relative one on.
pub(crate) fn gated_windows(alloc: Global, windows: &[u128]) -> Result<Vec<u128>, Memory>
    requires few { length windows.now ≤ 2 ^ 25 }
    requires small { All (λ (z : ℕ). z < 2 ^ 87) windows.now }
    ensures { IfOk result (λ gated. gated.items ≡ gated_windows windows.now) }
{
    let audible = audible_windows(alloc, windows)?;
    near_windows(alloc, &audible)
}

/// The windows from the absolute threshold on, -70 LUFS.
fn audible_windows(alloc: Global, windows: &[u128]) -> Result<Vec<u128>, Memory>
    requires { All (λ (z : ℕ). z < 2 ^ 87) windows.now }
    ensures { IfOk result (λ audible. audible.items ≡ filter is_window_audible windows.now) }
{
    let mut audible = Vec::new(alloc);
    for energy in windows {
        if 1_250_000_000 * *energy >= 180 * FULL_POWER {
            audible.push(*energy)?;
        }
    }
    Ok(audible)
}

/// Of windows, those from the relative threshold on, their mean less 20 LU.
fn near_windows(alloc: Global, windows: &[u128]) -> Result<Vec<u128>, Memory>
    requires few { length windows.now ≤ 2 ^ 25 }
    requires small { All (λ (z : ℕ). z < 2 ^ 87) windows.now }
    requires total { sum windows.now < 2 ^ 113 }
    ensures { IfOk result (λ near. near.items ≡ filter (is_window_near windows.now) windows.now) }
{
    let sum: u128 = windows.iter().sum();
    let count = windows.len() as u128;
    let mut near = Vec::new(alloc);
    for energy in windows {
        if 100 * count * *energy >= sum {
            near.push(*energy)?;
        }
    }
    Ok(near)
}
