//! The levels that follow from blocks, windows and a peak.
ghost use Rattle.std.specs.Prelude.{◌≡◌, ◌≤◌, ◌^◌, ℕ, unsigned_abs, All, option_map, IfOk, IfSome};
ghost use Rattle.lib_base.specs.declared.limits.TheConstants.{GREATEST_PEAK};
ghost use Rattle.gate_blocks.specs.Bounds.{AreBlocks, AreWindows};
ghost use Rattle.sound_model.specs.Loudness as model;
ghost use Rattle.sound_model.specs.Summaries.{Summarises, IsPeakLevel, gain_of};

use db_table::{hundredths, level};
use gate_blocks::{block_level, window_level};
use lib_base::{Memory, Summary};
use std::alloc::Global;

/// The loudness to which a gain brings a recording, in hundredths of LUFS (ReplayGain 2.0).
const REFERENCE: i32 = -1800;

/// The levels of so many frames with the energies of these blocks and windows, and this peak in
/// units of 2^-36 of full scale (BS.1770-4, EBU R 128, Tech 3341 and 3342, ReplayGain 2.0). What
/// can't be measured is absent.
pub fn summarise(
    alloc: Global,
    frames: u64,
    blocks: &[u128],
    windows: &[u128],
    peak: u64,
) -> Result<Summary, Memory>
    requires blocks { AreBlocks blocks.now }
    requires windows { AreWindows windows.now }
    requires peak { peak ≤ GREATEST_PEAK }
    ensures { IfOk result (Summarises frames blocks.now windows.now peak) }
{
    let loudness = gate_blocks::loudness(blocks);
    Ok(Summary {
        frames,
        loudness,
        range: loudness_range::range(alloc, windows)?,
        momentary: block_level(greatest(blocks)),
        short_term: window_level(greatest(windows)),
        true_peak: peak_level(peak),
        peak,
        gain: gain_for(loudness),
    })
}

/// The greatest of energies, and 0 where there is none.
pub(crate) fn greatest(energies: &[u128]) -> u128
    ensures value { result ≡ model.greatest energies.now }
    ensures within { (limit : ℕ) → All (λ e. e ≤ limit) energies.now → result ≤ limit }
{
    let mut most = 0u128;
    for energy in energies {
        most = most.max(*energy);
    }
    most
}

/// The true peak of a peak, absent exactly where it is 0.
pub(crate) fn peak_level(peak: u64) -> Option<i32>
    requires { peak ≤ GREATEST_PEAK }
    ensures { model.IfThere IsPeakLevel (model.above_zero peak) result }
{
    if peak == 0 {
        return None;
    }
    Some(hundredths(level(squared(peak), 1 << 72)))
}

fn squared(peak: u64) -> u128
    requires { peak ≤ GREATEST_PEAK }
    ensures value { result ≡ peak ^ 2 }
    ensures bound { result ≤ 2 ^ 76 }
{
    let size = u128::from(peak);
    size * size
}

/// The gain that brings a loudness to that of the reference.
pub(crate) fn gain_for(loudness: Option<i32>) -> Option<i32>
    requires { IfSome loudness (λ v. unsigned_abs v ≤ 28000) }
    ensures { result ≡ option_map gain_of loudness }
{
    match loudness {
        Some(level) => Some(REFERENCE - level),
        None => None,
    }
}
