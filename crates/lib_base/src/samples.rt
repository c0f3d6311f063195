//! Samples of any depth, scaled to one.
ghost use Rattle.std.specs.Prelude.{◌≡◌, ◌≤◌, ◌-◌, ◌^◌, pos, unsigned_abs};
ghost use Rattle.lib_base.specs.Sounds.{IsSample, scaled};

use crate::{GREATEST_DEPTH, LEAST_DEPTH};

/// A sample of `depth` bits, scaled to 24 bits.
#[inline(always)]
pub fn scaled(sample: i32, depth: u32) -> i64
    requires low { LEAST_DEPTH ≤ depth }
    requires high { depth ≤ GREATEST_DEPTH }
    requires within { IsSample depth sample }
    ensures value { result ≡ scaled depth sample }
    ensures small { unsigned_abs result ≤ 2 ^ 23 }
{
    i64::from(sample) * scale(depth)
}

#[inline(always)]
fn scale(depth: u32) -> i64
    requires low { LEAST_DEPTH ≤ depth }
    requires high { depth ≤ GREATEST_DEPTH }
    ensures { result ≡ pos (2 ^ (GREATEST_DEPTH - depth)) }
{
    (1u64 << (GREATEST_DEPTH - depth)) as i64
}
