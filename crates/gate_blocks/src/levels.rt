//! Loudness of blocks and windows.
ghost use Rattle.std.specs.Prelude.{◌≤◌, ◌<◌, ◌*◌, ℕ, List, unsigned_abs, IfSome};
ghost use Rattle.lib_base.specs.declared.limits.TheConstants.{BLOCK_SEGMENTS, GREATEST_ENERGY, WINDOW_SEGMENTS};
ghost use Rattle.sound_model.specs.Loudness.{IsLoudness, IfThere, IsBlockLevel, IsWindowLevel, above_zero, mean};
ghost use Rattle.gate_blocks.specs.Bounds.{AreBlocks, IsTallyOf};

use crate::gates::Tally;
use db_table::{hundredths, level};
use lib_base::FULL_POWER;

/// The loudness of blocks, in hundredths of LUFS: that of the mean of those that pass both gates,
/// absent exactly where none does. It takes no memory.
pub fn loudness(blocks: &[u128]) -> Option<i32>
    requires { AreBlocks blocks.now }
    ensures value { IsLoudness blocks.now result }
    ensures small { IfSome result (λ v. unsigned_abs v ≤ 28000) }
{
    let mut audible = Tally::new();
    audible.add_audible(blocks);
    let mut near = Tally::new();
    near.add_near(blocks, audible);
    tally_level(near)
}

/// The loudness of the mean of the blocks that a tally counts, rounded down, in hundredths of LUFS:
/// absent exactly where it counts none.
pub fn tally_level(tally: Tally) -> Option<i32>
    ensures value { (blocks : List ℕ) → IsTallyOf blocks tally.count tally.sum → IfThere IsBlockLevel (mean blocks) result }
    ensures small { IfSome result (λ v. unsigned_abs v ≤ 28000) }
{
    if tally.count == 0 {
        return None;
    }
    Some(level_of_block(tally.sum / u128::from(tally.count)))
}

/// The loudness of one block's energy, in hundredths of LUFS, absent exactly where the energy is 0.
pub fn block_level(energy: u128) -> Option<i32>
    requires { energy ≤ BLOCK_SEGMENTS * GREATEST_ENERGY }
    ensures value { IfThere IsBlockLevel (above_zero energy) result }
    ensures small { IfSome result (λ v. unsigned_abs v ≤ 28000) }
{
    if energy == 0 {
        return None;
    }
    Some(level_of_block(energy))
}

/// The loudness of one window's energy, in hundredths of LUFS, absent exactly where the energy is 0.
pub fn window_level(energy: u128) -> Option<i32>
    requires { energy ≤ WINDOW_SEGMENTS * GREATEST_ENERGY }
    ensures value { IfThere IsWindowLevel (above_zero energy) result }
    ensures small { IfSome result (λ v. unsigned_abs v ≤ 28000) }
{
    if energy == 0 {
        return None;
    }
    Some(hundredths(level(25 * energy, 36 * FULL_POWER)))
}

fn level_of_block(energy: u128) -> i32
    requires some { 0 < energy }
    requires within { energy ≤ BLOCK_SEGMENTS * GREATEST_ENERGY }
    ensures value { IsBlockLevel energy result }
    ensures small { unsigned_abs result ≤ 28000 }
{
    hundredths(level(125 * energy, 24 * FULL_POWER))
}
