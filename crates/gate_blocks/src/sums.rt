//! Blocks and windows.
ghost use Rattle.std.specs.Prelude.{◌≡◌, ◌≤◌, ◌<◌, ◌+◌, ◌*◌, ◌^◌, length, IfOk, sum, All};
ghost use Rattle.lib_base.specs.Sounds.{part};
ghost use Rattle.lib_base.specs.declared.limits.TheConstants.{GREATEST_ENERGY};
ghost use Rattle.gate_blocks.specs.Bounds.{AreSegments, AreBlocks, AreWindows};
ghost use Rattle.sound_model.specs.Blocks.{blocks_of, windows_of, neighbour_sums};

use lib_base::{BLOCK_SEGMENTS, Energies, Memory, WINDOW_SEGMENTS};
use std::alloc::Global;

/// The energies of the blocks, each the sum of 4 neighbouring segments. An incomplete last block is
/// none.
pub fn blocks(alloc: Global, segments: &[u128]) -> Result<Energies, Memory>
    requires { AreSegments segments.now }
    ensures sums { IfOk result (λ sums. sums ≡ blocks_of segments.now) }
    ensures bounds { IfOk result (λ sums. length segments.now ≤ 2 ^ 25 → AreBlocks sums) }
{
    sums_of_neighbours(alloc, segments, BLOCK_SEGMENTS)
}

/// The energies of the windows, each the sum of 30 neighbouring segments.
pub fn windows(alloc: Global, segments: &[u128]) -> Result<Energies, Memory>
    requires { AreSegments segments.now }
    ensures sums { IfOk result (λ sums. sums ≡ windows_of segments.now) }
    ensures bounds { IfOk result (λ sums. length segments.now ≤ 2 ^ 25 → AreWindows sums) }
{
    sums_of_neighbours(alloc, segments, WINDOW_SEGMENTS)
}

fn sums_of_neighbours(alloc: Global, segments: &[u128], count: usize) -> Result<Energies, Memory>
    requires within { AreSegments segments.now }
    requires some { 0 < count }
    requires few { count ≤ WINDOW_SEGMENTS }
    ensures sums { IfOk result (λ sums. sums ≡ neighbour_sums count segments.now) }
    ensures within { IfOk result (λ sums. All (λ z. z ≤ count * GREATEST_ENERGY) sums) }
    ensures few { IfOk result (λ sums. length sums ≤ length segments.now) }
{
    let places = (segments.len() + 1).saturating_sub(count);
    let mut sums = Vec::with_capacity(alloc, places)?;
    for place in 0..places {
        sums.push(sum_at(segments, place, count))?;
    }
    Ok(Energies::of(sums))
}

/// The sum of so many segments from a place on.
fn sum_at(segments: &[u128], place: usize, count: usize) -> u128
    requires within { AreSegments segments.now }
    requires inside { place + count ≤ length segments.now }
    requires few { count ≤ WINDOW_SEGMENTS }
    ensures { result ≡ sum (part segments.now place count) }
{
    let rest = segments.split_at(place).1;
    sum_of(rest.split_at(count).0)
}

fn sum_of(energies: &[u128]) -> u128
    requires { sum energies.now < 2 ^ 128 }
    ensures { result ≡ sum energies.now }
{
    energies.iter().sum()
}
