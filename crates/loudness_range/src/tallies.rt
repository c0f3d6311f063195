//! The gates of the range, as steps over a count and a sum.
ghost use Rattle.std.specs.Prelude.{◌≡◌, ◌≤◌, ◌<◌, ◌+◌, ◌*◌, ◌^◌, ◌&&◌, ℕ, List, filter, length, sum, nat_le, true, All};
ghost use Rattle.sound_model.specs.Ranges.{is_window_audible, is_window_near};

use lib_base::FULL_POWER;

/// 125 * 10^7: an energy times this reaches 180 times `FULL_POWER` from -70 LUFS on.
const SCALE: u128 = 1_250_000_000;

/// The least energy of a window from the absolute threshold on, -70 LUFS.
const LEAST_AUDIBLE: u128 = (180 * FULL_POWER + SCALE - 1) / SCALE;

/// How many windows are from -70 LUFS on, and the sum of their energies.
///
/// Windows of many lists are gated as those of one by adding list after list: `least_passing` then
/// says from which energy on a window passes both gates.
#[derive(Clone, Copy, Debug)]
pub struct WindowTally {
    pub count: u64,
    pub sum: u128,
    ghost few: { count ≤ 2 ^ 25 },
    ghost small: { sum ≤ count * 2 ^ 87 },
}

impl WindowTally {
    /// Of no window.
    pub fn new() -> WindowTally
        ensures count { result.count ≡ 0 }
        ensures sum { result.sum ≡ 0 }
    {
        WindowTally { count: 0, sum: 0 }
    }

    /// Adds those of the windows that are from -70 LUFS on.
    pub fn add_audible(&mut self, windows: &[u128])
        requires small { All (λ (z : ℕ). z < 2 ^ 87) windows.now }
        requires room { self.old.count + length windows.now ≤ 2 ^ 25 }
        ensures count { self.new.count ≡ self.old.count + length (filter is_window_audible windows.now) }
        ensures sum { self.new.sum ≡ self.old.sum + sum (filter is_window_audible windows.now) }
    {
        let audible = audible_of(windows);
        *self = WindowTally {
            count: self.count + audible.count,
            sum: self.sum + audible.sum,
        };
    }

    /// The least energy of a window that passes both gates, where the windows that pass the first
    /// one are those that were added: it is from -70 LUFS on, and from their mean less 20 LU on.
    pub fn least_passing(self) -> u128
        ensures passes { (audible : List ℕ) (energy : ℕ) → self.count ≡ length audible → self.sum ≡ sum audible
            → nat_le result energy ≡ (is_window_audible energy && is_window_near audible energy) }
        ensures audible { (energy : ℕ) → result ≤ energy → is_window_audible energy ≡ true }
        ensures some { 0 < result }
        ensures small { result ≤ 2 ^ 87 }
    {
        least_near(self).max(LEAST_AUDIBLE)
    }
}

/// Tallies the windows from the absolute threshold on, -70 LUFS.
fn audible_of(windows: &[u128]) -> WindowTally
    requires small { All (λ (z : ℕ). z < 2 ^ 87) windows.now }
    requires few { length windows.now ≤ 2 ^ 25 }
    ensures count { result.count ≡ length (filter is_window_audible windows.now) }
    ensures sum { result.sum ≡ sum (filter is_window_audible windows.now) }
    ensures few { result.count ≤ length windows.now }
{
    let mut count = 0;
    let mut sum = 0;
    for energy in windows {
        if SCALE * *energy >= 180 * FULL_POWER {
            count += 1;
            sum += *energy;
        }
    }
    WindowTally { count, sum }
}

/// The least energy from the relative threshold on: the mean of what a tally counts less 20 LU, a
/// hundredth of it.
fn least_near(tally: WindowTally) -> u128
    ensures passes { (energy : ℕ) → nat_le result energy ≡ nat_le tally.sum (100 * tally.count * energy) }
    ensures small { result ≤ 2 ^ 87 }
{
    if tally.count == 0 {
        return 0;
    }
    tally.sum.div_ceil(100 * u128::from(tally.count))
}
