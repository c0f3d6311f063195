//! Samples from their residuals.
ghost use Rattle.std.specs.Prelude.{◌≡◌, ◌≤◌, ◌<◌, IfOk, All, take, length};
ghost use Rattle.lib_base.specs.Sounds.{IsSample};

use crate::noise::{checksum, noise};
use anyhow::bail;
use flac_predict::{OutOfDepth, restore_fixed, restore_linear};
use std::alloc::{AllocError, Global};

/// How many samples a block has.
const BLOCK: usize = 4_096;

const DEPTH: u32 = 16;

/// How far sums of weighted samples are shifted.
const SHIFT: u32 = 14;

/// Restores a block of a fixed predictor of order 2 so many times.
pub fn fixed(alloc: Global, rounds: u32) -> anyhow::Result<u64> {
    let coded = coded(alloc, &[2, -1], 0)?;
    let mut block = vec![in alloc; 0; BLOCK]?;
    'rounds: for _ in 0..rounds {
        if let Err(refusal) = fixed_round(coded.as_slice(), block.as_mut_slice()) {
            bail!("out of depth at {}", refusal.place);
        }
    }
    Ok(checksum(block.as_slice()))
}

/// Restores a coded block in another one.
fn fixed_round(coded: &[i32], block: &mut [i32]) -> Result<(), OutOfDepth>
    requires room { 2 ≤ length coded.now }
    requires equal { length block.old ≡ length coded.now }
    requires warm_up { All (IsSample 16) (take 2 coded.now) }
{
    block.copy_from_slice(coded);
    restore_fixed(2, block, DEPTH)
}

/// Restores a block of a linear predictor of an order so many times.
pub fn linear(alloc: Global, order: usize, rounds: u32) -> anyhow::Result<u64>
    requires some { 1 ≤ order }
    requires few { order ≤ 32 }
{
    let weights = weights(alloc, order)?;
    let coded = coded(alloc, weights.as_slice(), SHIFT)?;
    let mut block = vec![in alloc; 0; BLOCK]?;
    'rounds: for _ in 0..rounds {
        let outcome = linear_round(weights.as_slice(), coded.as_slice(), block.as_mut_slice());
        if let Err(refusal) = outcome {
            bail!("out of depth at {}", refusal.place);
        }
    }
    Ok(checksum(block.as_slice()))
}

fn linear_round(weights: &[i32], coded: &[i32], block: &mut [i32]) -> Result<(), OutOfDepth>
    requires some { 1 ≤ length weights.now }
    requires few { length weights.now ≤ 32 }
    requires bits { All (IsSample 15) weights.now }
    requires room { length weights.now ≤ length coded.now }
    requires equal { length block.old ≡ length coded.now }
    requires warm_up { All (IsSample 16) (take (length weights.now) coded.now) }
{
    block.copy_from_slice(coded);
    restore_linear(weights, SHIFT, block, DEPTH)
}

/// So many weights of 15 bits.
fn weights(alloc: Global, order: usize) -> Result<Vec<i32>, AllocError>
    ensures within { IfOk result (λ v. All (IsSample 15) v.items) }
    ensures count { IfOk result (λ v. length v.items ≡ order) }
{
    let mut weights = Vec::new(alloc);
    let numbers = noise(alloc, order)?;
    for number in numbers.as_slice() {
        weights.push(half(*number))?;
    }
    Ok(weights)
}

fn half(number: i32) -> i32
    requires { IsSample 16 number }
    ensures { IsSample 15 result }
{
    number >> 1
}

/// A block of noise, of which what stands behind the warm-up samples became residuals.
fn coded(alloc: Global, weights: &[i32], shift: u32) -> Result<Vec<i32>, AllocError>
    requires few { length weights.now ≤ 32 }
    requires shift { shift < 64 }
    ensures count { IfOk result (λ v. length v.items ≡ BLOCK) }
    ensures warm_up { IfOk result (λ v. All (IsSample 16) (take (length weights.now) v.items)) }
{
    let samples = noise(alloc, BLOCK)?;
    let mut coded = samples.clone()?;
    for place in weights.len()..BLOCK {
        coded.as_mut_slice()[place] = residual(weights, shift, samples.as_slice(), place);
    }
    Ok(coded)
}

/// The sample at a place less its prediction, where that fits.
fn residual(weights: &[i32], shift: u32, samples: &[i32], place: usize) -> i32
    requires behind { length weights.now ≤ place }
    requires inside { place < length samples.now }
    requires shift { shift < 64 }
{
    let mut sum = 0i64;
    for k in 0..weights.len() {
        let product = i64::from(weights[k]).wrapping_mul(i64::from(samples[place - 1 - k]));
        sum = sum.wrapping_add(product);
    }
    let residual = i64::from(samples[place]).wrapping_sub(sum >> shift);
    i32::try_from(residual).unwrap_or(0)
}
