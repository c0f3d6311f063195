//! The loudness range of an album, over its recordings' windows with no list joined.
ghost use Rattle.std.specs.Prelude.{◌≡◌, ◌<◌, ◌≤◌, ◌*◌, ◌&&◌, ℕ, List, All, filter, length, sum, count_by, nat_lt, nat_le, true, IsPermutation};
ghost use Rattle.lib_base.specs.declared.limits.TheConstants.{MOST_MEMBERS, MOST_SEGMENTS};
ghost use Rattle.sound_model.specs.Ranges.{IsRange, is_window_audible};
ghost use Rattle.album_merge.specs.Joined.{windows_in, greatest_window_in};

use crate::members::{Member, greatest_window_of};
use db_table::{hundredths, level};
use loudness_range::{WindowTally, percentile_place};

/// The range of all windows of the members in hundredths of LU, absent exactly where none passes both
/// gates.
pub(crate) fn range_of(members: &[Member]) -> Option<i32>
    requires { length members.now ≤ MOST_MEMBERS }
    ensures { (windows : List ℕ) → IsPermutation (filter is_window_audible windows) (windows_in members.now) → IsRange windows result }
{
    let least = audible_windows(members).least_passing();
    // where no window passes, the greatest may be less than the least that would
    let most = greatest_window_of(members).max(least);
    let count = count_between(members, least, most);
    if count == 0 {
        return None;
    }
    let low = window_at(members, percentile_place(count, 10), least, most);
    let high = window_at(members, percentile_place(count, 95), least, most);
    Some(hundredths(level(high, low)))
}

/// Tallies the windows from -70 LUFS on.
fn audible_windows(members: &[Member]) -> WindowTally
    requires { length members.now ≤ MOST_MEMBERS }
    ensures count { result.count ≡ length (windows_in members.now) }
    ensures sum { result.sum ≡ sum (windows_in members.now) }
    ensures within { All (λ z. z ≤ greatest_window_in members.now) (windows_in members.now) }
{
    let mut audible = WindowTally::new();
    for member in members {
        audible.add_audible(member.tally.windows());
    }
    audible
}

/// Of the windows from `least` on, the one at a place when they stand in ascending order: found by
/// halving the numbers from `least` to `most`.
fn window_at(members: &[Member], place: u64, least: u128, most: u128) -> u128
    requires few { length members.now ≤ MOST_MEMBERS }
    requires order { least ≤ most }
    requires audible { (e : ℕ) → least ≤ e → is_window_audible e ≡ true }
    requires some { place < count_by (λ (e : ℕ). nat_le least e && nat_le e most) (windows_in members.now) }
    ensures less { count_by (λ (e : ℕ). nat_le least e && nat_lt e result) (windows_in members.now) ≤ place }
    ensures no_greater { place < count_by (λ (e : ℕ). nat_le least e && nat_le e result) (windows_in members.now) }
    ensures from_least { least ≤ result }
    ensures to_most { result ≤ most }
{
    let mut low = least;
    let mut high = most;
    while low < high {
        let middle = low + (high - low) / 2;
        if count_between(members, least, middle) > place {
            high = middle;
        } else {
            low = middle + 1;
        }
    }
    high
}

/// How many windows of the members are from `least` to `most`.
fn count_between(members: &[Member], least: u128, most: u128) -> u64
    requires few { length members.now ≤ MOST_MEMBERS }
    requires audible { (e : ℕ) → least ≤ e → is_window_audible e ≡ true }
    ensures { result ≡ count_by (λ (e : ℕ). nat_le least e && nat_le e most) (windows_in members.now) }
{
    let mut count = 0;
    for member in members {
        count += count_of(member.tally.windows(), least, most);
    }
    count
}

/// How many windows are from `least` to `most`.
fn count_of(windows: &[u128], least: u128, most: u128) -> u64
    requires few { length windows.now ≤ MOST_SEGMENTS }
    requires audible { (e : ℕ) → least ≤ e → is_window_audible e ≡ true }
    ensures value { result ≡ count_by (λ (e : ℕ). nat_le least e && nat_le e most) (filter is_window_audible windows.now) }
    ensures few { result ≤ MOST_SEGMENTS }
{
    let mut count = 0;
    for energy in windows {
        if least <= *energy && *energy <= most {
            count += 1;
        }
    }
    count
}
