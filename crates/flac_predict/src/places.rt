//! Places at which a sample leaves its depth.
ghost use Rattle.std.specs.Prelude.{◌≤◌, SomeIff};
ghost use Rattle.lib_base.specs.Sounds.{IsSample};

/// The sample that would be restored at this place is not within the depth.
#[derive(Clone, Copy, Debug, PartialEq, Eq)]
pub struct OutOfDepth {
    pub place: usize,
}

/// The value as a sample of `depth` bits, where it is within the depth.
#[inline(always)]
pub fn sample_of(value: i64, depth: u32) -> Option<i32>
    requires low { 1 ≤ depth }
    requires high { depth ≤ 25 }
    ensures { SomeIff result (IsSample depth value) value }
{
    let limit = 1i64 << (depth - 1);
    if -limit <= value && value < limit {
        Some(value as i32)
    } else {
        None
    }
}
