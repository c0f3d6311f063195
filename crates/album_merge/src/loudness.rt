//! The loudness of an album, over its recordings' blocks with no list joined.
ghost use Rattle.std.specs.Prelude.{◌≤◌, ◌*◌, ℕ, List, filter, length, unsigned_abs, IfSome, IsPermutation};
ghost use Rattle.lib_base.specs.declared.limits.TheConstants.{MOST_MEMBERS, MOST_SEGMENTS};
ghost use Rattle.sound_model.specs.Loudness.{IsLoudness, is_audible, is_near};
ghost use Rattle.gate_blocks.specs.Bounds.{IsTallyOf};
ghost use Rattle.album_merge.specs.Joined.{blocks_in};

use crate::members::Member;
use gate_blocks::{Tally, tally_level};

/// The loudness of all blocks of the members, in hundredths of LUFS, absent exactly where none passes
/// both gates.
pub(crate) fn loudness_of(members: &[Member]) -> Option<i32>
    requires { length members.now ≤ MOST_MEMBERS }
    ensures value { (blocks : List ℕ) → IsPermutation (filter is_audible blocks) (blocks_in members.now) → IsLoudness blocks result }
    ensures small { IfSome result (λ v. unsigned_abs v ≤ 28000) }
{
    tally_level(near_blocks(members, audible_blocks(members)))
}

/// Tallies the blocks above the absolute threshold, -70 LUFS.
fn audible_blocks(members: &[Member]) -> Tally
    requires { length members.now ≤ MOST_MEMBERS }
    ensures { IsTallyOf (blocks_in members.now) result.count result.sum }
{
    let mut audible = Tally::new();
    for member in members {
        audible.add_audible(member.tally.blocks());
    }
    audible
}

/// Tallies those of them that are above the relative threshold, their mean less 10 LU.
fn near_blocks(members: &[Member], audible: Tally) -> Tally
    requires few { length members.now ≤ MOST_MEMBERS }
    requires audible { IsTallyOf (blocks_in members.now) audible.count audible.sum }
    ensures { IsTallyOf (filter (is_near (blocks_in members.now)) (blocks_in members.now)) result.count result.sum }
{
    let mut near = Tally::new();
    for member in members {
        near.add_near(member.tally.blocks(), audible);
    }
    near
}
