//! Samples from their residuals.
ghost use Rattle.std.specs.Prelude.{◌≡◌, ◌≤◌, ◌^◌, ℤ, pos, ◌+ℤ◌, ◌-ℤ◌, ◌*ℤ◌, List, length, take, All, unsigned_abs, OnOk, IfErr, OnErr};
ghost use Rattle.lib_base.specs.Sounds.{IsSample};
ghost use Rattle.file_model.specs.Predict.{fixed_weights, predicted, Spells, Leaves};

use crate::places::{OutOfDepth, sample_of};

/// Restores the samples of the fixed predictor of an order from 0 to 4 (RFC 9639 section 9.2.5).
///
/// The slice holds as many warm-up samples of `depth` bits as the order says, and residuals behind
/// them, which become samples. After a refusal it holds anything.
pub fn restore_fixed(order: usize, samples: &mut [i32], depth: u32) -> Result<(), OutOfDepth>
    requires order { order ≤ 4 }
    requires room { order ≤ length samples.old }
    requires low { 1 ≤ depth }
    requires high { depth ≤ 25 }
    requires warm_up { All (IsSample depth) (take order samples.old) }
    ensures restored { OnOk result (Spells (fixed_weights order) 0 depth samples.new samples.old) }
    ensures only { OnOk result ((spelled : List ℤ)
        → Spells (fixed_weights order) 0 depth spelled samples.old → spelled ≡ samples.new) }
    ensures leaves { IfErr result (λ e. Leaves (fixed_weights order) 0 depth samples.old e.place) }
    ensures none { OnErr result ((spelled : List ℤ)
        → ¬ Spells (fixed_weights order) 0 depth spelled samples.old) }
{
    match order {
        0 => restore(&[], 0, samples, depth),
        1 => restore(&[1], 0, samples, depth),
        2 => restore_straight(samples, depth),
        3 => restore(&[3, -3, 1], 0, samples, depth),
        _ => restore(&[4, -6, 4, -1], 0, samples, depth),
    }
}

/// Restores the samples of a linear predictor (RFC 9639 section 9.2.6). The first coefficient, of at
/// most 15 bits like all of them, goes with the sample just before.
///
/// The slice holds as many warm-up samples of `depth` bits as there are coefficients, and residuals
/// behind them, which become samples. After a refusal it holds anything.
pub fn restore_linear(
    coefficients: &[i32],
    shift: u32,
    samples: &mut [i32],
    depth: u32,
) -> Result<(), OutOfDepth>
    requires some { 1 ≤ length coefficients.now }
    requires few { length coefficients.now ≤ 32 }
    requires bits { All (IsSample 15) coefficients.now }
    requires room { length coefficients.now ≤ length samples.old }
    requires shift { shift ≤ 15 }
    requires low { 1 ≤ depth }
    requires high { depth ≤ 25 }
    requires warm_up { All (IsSample depth) (take (length coefficients.now) samples.old) }
    ensures restored { OnOk result (Spells coefficients.now shift depth samples.new samples.old) }
    ensures only { OnOk result ((spelled : List ℤ)
        → Spells coefficients.now shift depth spelled samples.old → spelled ≡ samples.new) }
    ensures leaves { IfErr result (λ e. Leaves coefficients.now shift depth samples.old e.place) }
    ensures none { OnErr result ((spelled : List ℤ)
        → ¬ Spells coefficients.now shift depth spelled samples.old) }
{
    // Each order to 12, which is as far as the presets of the flac tool go, has a body of its own, in
    // which the loop over the weights is unrolled. That halves the time.
    match coefficients.len() {
        1 => restore(coefficients, shift, samples, depth),
        2 => restore(coefficients, shift, samples, depth),
        3 => restore(coefficients, shift, samples, depth),
        4 => restore(coefficients, shift, samples, depth),
        5 => restore(coefficients, shift, samples, depth),
        6 => restore(coefficients, shift, samples, depth),
        7 => restore(coefficients, shift, samples, depth),
        8 => restore(coefficients, shift, samples, depth),
        9 => restore(coefficients, shift, samples, depth),
        10 => restore(coefficients, shift, samples, depth),
        11 => restore(coefficients, shift, samples, depth),
        12 => restore(coefficients, shift, samples, depth),
        _ => restore(coefficients, shift, samples, depth),
    }
}

/// Restores the samples of order 2, with the last two of them at hand: to read them again from the
/// slice, where they were just written, takes 1.4 times as long.
fn restore_straight(samples: &mut [i32], depth: u32) -> Result<(), OutOfDepth>
    requires room { 2 ≤ length samples.old }
    requires low { 1 ≤ depth }
    requires high { depth ≤ 25 }
    requires warm_up { All (IsSample depth) (take 2 samples.old) }
    ensures restored { OnOk result (Spells (fixed_weights 2) 0 depth samples.new samples.old) }
    ensures only { OnOk result ((spelled : List ℤ)
        → Spells (fixed_weights 2) 0 depth spelled samples.old → spelled ≡ samples.new) }
    ensures leaves { IfErr result (λ e. Leaves (fixed_weights 2) 0 depth samples.old e.place) }
    ensures none { OnErr result ((spelled : List ℤ)
        → ¬ Spells (fixed_weights 2) 0 depth spelled samples.old) }
{
    let mut before = samples[0];
    let mut last = samples[1];
    for place in 2..samples.len() {
        let value = sum_of(samples[place], straight(before, last));
        match sample_of(value, depth) {
            Some(sample) => {
                samples[place] = sample;
                before = last;
                last = sample;
            }
            None => return Err(OutOfDepth { place }),
        }
    }
    Ok(())
}

/// How a straight line through two samples goes on.
#[inline(always)]
fn straight(before: i32, last: i32) -> i64
    ensures value { result ≡ (pos 2 *ℤ last) -ℤ before }
    ensures small { unsigned_abs result ≤ 2 ^ 43 }
{
    2 * i64::from(last) - i64::from(before)
}

/// Restores the samples behind as many warm-up samples as there are weights.
#[inline(always)]
fn restore(weights: &[i32], shift: u32, samples: &mut [i32], depth: u32) -> Result<(), OutOfDepth>
    requires few { length weights.now ≤ 32 }
    requires bits { All (IsSample 15) weights.now }
    requires room { length weights.now ≤ length samples.old }
    requires shift { shift ≤ 15 }
    requires low { 1 ≤ depth }
    requires high { depth ≤ 25 }
    requires warm_up { All (IsSample depth) (take (length weights.now) samples.old) }
    ensures restored { OnOk result (Spells weights.now shift depth samples.new samples.old) }
    ensures only { OnOk result ((spelled : List ℤ)
        → Spells weights.now shift depth spelled samples.old → spelled ≡ samples.new) }
    ensures leaves { IfErr result (λ e. Leaves weights.now shift depth samples.old e.place) }
    ensures none { OnErr result ((spelled : List ℤ)
        → ¬ Spells weights.now shift depth spelled samples.old) }
{
    for place in weights.len()..samples.len() {
        let value = sum_of(samples[place], prediction(weights, shift, samples, place));
        match sample_of(value, depth) {
            Some(sample) => samples[place] = sample,
            None => return Err(OutOfDepth { place }),
        }
    }
    Ok(())
}

/// A residual and its prediction.
#[inline(always)]
fn sum_of(residual: i32, prediction: i64) -> i64
    requires { unsigned_abs prediction ≤ 2 ^ 43 }
    ensures { result ≡ residual +ℤ prediction }
{
    i64::from(residual) + prediction
}

/// The prediction of the sample at a place.
#[inline(always)]
fn prediction(weights: &[i32], shift: u32, samples: &[i32], place: usize) -> i64
    requires few { length weights.now ≤ 32 }
    requires bits { All (IsSample 15) weights.now }
    requires behind { length weights.now ≤ place }
    requires inside { place ≤ length samples.now }
    requires shift { shift ≤ 15 }
    requires within { All (IsSample 25) (take place samples.now) }
    ensures value { result ≡ predicted weights.now shift samples.now place }
    ensures small { unsigned_abs result ≤ 2 ^ 43 }
{
    let mut sum = 0;
    for k in 0..weights.len() {
        sum += product(weights[k], samples[place - 1 - k]);
    }
    sum >> shift
}

/// A weight by a sample.
#[inline(always)]
fn product(weight: i32, sample: i32) -> i64
    requires weight { IsSample 15 weight }
    requires sample { IsSample 25 sample }
    ensures value { result ≡ weight *ℤ sample }
    ensures small { unsigned_abs result ≤ 2 ^ 38 }
{
    i64::from(weight) * i64::from(sample)
}
