//! The left and right channel from two that are coded as a pair.
ghost use Rattle.std.specs.Prelude.{◌≡◌, ◌≤◌, ◌^◌, ℤ, pos, ◌+ℤ◌, ◌-ℤ◌, List, length, All, unsigned_abs, MatchOption, OnOk, IfErr, OnErr};
ghost use Rattle.std.specs.Int.{int_div_euclid};
ghost use Rattle.lib_base.specs.Sounds.{IsSample};
ghost use Rattle.lib_base.specs.declared.limits.TheConstants.{GREATEST_DEPTH};
ghost use Rattle.file_model.specs.Pairs.{first_depth, second_depth, IsPair, SpellsPair, IsPairOutside, LeavesPair};

use crate::places::{OutOfDepth, sample_of};
use file_model::Stereo;

/// Restores the left channel in the first slice, and the right one in the second (RFC 9639 section
/// 4.2).
///
/// The slices hold two channels that are coded as `kind` says: the samples of the side channel have
/// a bit more than `depth`. After a refusal they hold anything.
pub fn undo_stereo(
    kind: Stereo,
    first: &mut [i32],
    second: &mut [i32],
    depth: u32,
) -> Result<(), OutOfDepth>
    requires low { 1 ≤ depth }
    requires high { depth ≤ GREATEST_DEPTH }
    requires equal { length second.old ≡ length first.old }
    requires first_within { All (IsSample (first_depth kind depth)) first.old }
    requires second_within { All (IsSample (second_depth kind depth)) second.old }
    ensures restored { OnOk result
        (SpellsPair kind depth first.new second.new first.old second.old) }
    ensures only { OnOk result ((left right : List ℤ)
        → SpellsPair kind depth left right first.old second.old
        → (left ≡ first.new) × (right ≡ second.new)) }
    ensures leaves { IfErr result (λ e. LeavesPair kind depth first.old second.old e.place) }
    ensures none { OnErr result ((left right : List ℤ)
        → ¬ SpellsPair kind depth left right first.old second.old) }
{
    for place in 0..first.len() {
        match restored_pair(kind, first[place], second[place], depth) {
            Some((left, right)) => {
                first[place] = left;
                second[place] = right;
            }
            None => return Err(OutOfDepth { place }),
        }
    }
    Ok(())
}

/// The left and the right sample for which two numbers stand, where both are within the depth.
#[inline(always)]
fn restored_pair(kind: Stereo, first: i32, second: i32, depth: u32) -> Option<(i32, i32)>
    requires low { 1 ≤ depth }
    requires high { depth ≤ 25 }
    ensures { MatchOption result (IsPairOutside kind depth first second)
        (λ pair. IsPair kind pair.0 pair.1 first second
        × IsSample depth pair.0 × IsSample depth pair.1) }
{
    let (left, right) = left_and_right(kind, first, second);
    Some((sample_of(left, depth)?, sample_of(right, depth)?))
}

/// The left and the right sample for which two numbers stand.
#[inline(always)]
fn left_and_right(kind: Stereo, first: i32, second: i32) -> (i64, i64)
    ensures { IsPair kind result.0 result.1 first second }
{
    match kind {
        Stereo::LeftSide => (i64::from(first), difference(first, second)),
        Stereo::SideRight => (sum(second, first.into()), i64::from(second)),
        Stereo::MidSide => {
            let right = right_of(first, second);
            (sum(second, right), right)
        }
    }
}

#[inline(always)]
fn difference(left: i32, side: i32) -> i64
    ensures { result ≡ left -ℤ side }
{
    i64::from(left) - i64::from(side)
}

#[inline(always)]
fn sum(side: i32, right: i64) -> i64
    requires { unsigned_abs right ≤ 2 ^ 33 }
    ensures { result ≡ right +ℤ side }
{
    right + i64::from(side)
}

/// The right sample of a mid and a side one: since the mid is half the sum, rounded down, the right
/// sample is below it by half the side, rounded down.
#[inline(always)]
fn right_of(mid: i32, side: i32) -> i64
    ensures value { result ≡ mid -ℤ int_div_euclid side (pos 2) }
    ensures small { unsigned_abs result ≤ 2 ^ 33 }
{
    i64::from(mid) - (i64::from(side) >> 1)
}
