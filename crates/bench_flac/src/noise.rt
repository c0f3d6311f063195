//! Generated numbers, and checksums of results.
ghost use Rattle.std.specs.Prelude.{◌≡◌, IfOk, All, length};
ghost use Rattle.lib_base.specs.Sounds.{IsSample};

use std::alloc::{AllocError, Global};

/// So many numbers of 16 bits, by the linear congruential generator of Numerical Recipes.
pub fn noise(alloc: Global, count: usize) -> Result<Vec<i32>, AllocError>
    ensures within { IfOk result (λ v. All (IsSample 16) v.items) }
    ensures count { IfOk result (λ v. length v.items ≡ count) }
{
    let mut samples = Vec::new(alloc);
    let mut state = 1u32;
    for _place in 0..count {
        state = state.wrapping_mul(1_664_525).wrapping_add(1_013_904_223);
        samples.push(upper_half(state))?;
    }
    Ok(samples)
}

fn upper_half(state: u32) -> i32
    ensures { IsSample 16 result }
{
    (state >> 16) as i32 - 32_768
}

/// A number that a change of any value would change.
pub fn checksum(values: &[i32]) -> u64 {
    values.iter().fold(0u64, |sum, value| {
        let bits = u32::from_le_bytes(value.to_le_bytes());
        sum.wrapping_mul(31).wrapping_add(u64::from(bits))
    })
}
