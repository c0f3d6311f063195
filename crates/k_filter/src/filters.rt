//! The filter, and how samples enter and leave it.
ghost use Rattle.std.specs.Prelude.{◌≡◌, ◌≤◌, ◌<◌, ◌-◌, ◌*◌, ◌^◌, ℕ, ℤ, pos, ◌+ℤ◌, List, [], ◌∷◌, ◌++◌, length, All, unsigned_abs};
ghost use Rattle.std.specs.Int.{int_div_euclid};
ghost use Rattle.lib_base.specs.Sounds.{IsSample};
ghost use Rattle.lib_base.specs.declared.limits.TheConstants.{LEAST_DEPTH, GREATEST_DEPTH};
ghost use Rattle.sound_model.specs.Weighted.{shelf, high_pass, next_output, held, entering, leaving, weighted};
ghost use Rattle.k_filter.specs.Bounds.{IsWithin};

use crate::sections::{Recent, high_pass_output, shelf_output};
use lib_base::{SAMPLE_RATE, scaled};

/// How much finer the units of a sample are as it enters than those of 24 bits.
const ENTERING: i64 = 1 << 16;

/// The K-weighting filter of one channel, at 48,000 Hz.
#[derive(Clone, Copy, Debug)]
pub struct Filter {
    inputs: Recent,
    shelved: Recent,
    passed: Recent,
    ghost inputs_within: { IsWithin (2 ^ 39) inputs },
    ghost shelved_within: { IsWithin (2 ^ 50) shelved },
    ghost passed_within: { IsWithin (2 ^ 50) passed },
}

impl Filter {
    ghost use Rattle.k_filter.specs.Fed.{WasFed};

    /// A filter for a channel of this rate, in frames a second, which was fed nothing so far.
    pub fn new(rate: u32) -> Filter
        requires { rate ≡ SAMPLE_RATE }
        ensures { (depth : ℕ) → WasFed result depth [] }
    {
        prove!(rate == SAMPLE_RATE);
        let silence = Recent { last: 0, before: 0 };
        Filter {
            inputs: silence,
            shelved: silence,
            passed: silence,
        }
    }

    /// Feeds a piece of the channel's samples of `depth` bits, and writes its weighted values, in units
    /// of 2^-27 of full scale.
    ///
    /// Where every piece so far was of this depth, the values of all pieces, one after another, are the
    /// weighted list of all samples, however they were cut.
    pub fn feed(&mut self, samples: &[i32], depth: u32, out: &mut [i32])
        requires equal { length samples.now ≡ length out.old }
        requires low { LEAST_DEPTH ≤ depth }
        requires high { depth ≤ GREATEST_DEPTH }
        requires within { All (IsSample depth) samples.now }
        ensures state { (fed : List ℤ) → WasFed self.old depth fed
            → WasFed self.new depth (fed ++ samples.now) }
        ensures value { (fed : List ℤ) → WasFed self.old depth fed
            → weighted depth (fed ++ samples.now) ≡ weighted depth fed ++ out.new }
        ensures small { All (λ w. unsigned_abs w ≤ 2 ^ 30) out.new }
    {
        let mut filter = *self;
        for i in 0..samples.len() {
            filter = filter.after(entering_value(samples[i], depth));
            out[i] = leaving_value(filter.passed.last);
        }
        *self = filter;
    }

    /// The filter after one more input.
    #[inline(always)]
    fn after(self, input: i64) -> Filter
        requires { unsigned_abs input ≤ 2 ^ 39 }
        ensures { (depth : ℕ) (sample : ℤ) (fed : List ℤ) → input ≡ entering depth sample
            → WasFed self depth fed → WasFed result depth (fed ++ sample ∷ []) }
    {
        let shelved = shelf_output(input, self.inputs, self.shelved);
        let passed = high_pass_output(shelved, self.shelved, self.passed);
        Filter {
            inputs: self.inputs.then(input),
            shelved: self.shelved.then(shelved),
            passed: self.passed.then(passed),
        }
    }
}

/// A sample as it enters, in units of 2^-39 of full scale.
#[inline(always)]
fn entering_value(sample: i32, depth: u32) -> i64
    requires low { LEAST_DEPTH ≤ depth }
    requires high { depth ≤ GREATEST_DEPTH }
    requires within { IsSample depth sample }
    ensures value { result ≡ entering depth sample }
    ensures small { unsigned_abs result ≤ 2 ^ 39 }
{
    scaled(sample, depth) * ENTERING
}

/// An output as it leaves, in units of 2^-27 of full scale.
#[inline(always)]
fn leaving_value(output: i64) -> i32
    requires { unsigned_abs output ≤ 2 ^ 50 }
    ensures value { result ≡ leaving output }
    ensures small { unsigned_abs result ≤ 2 ^ 30 }
{
    held_weighted(coarse(output))
}

/// An output in the coarser units in which it leaves, to the nearest one, and half of one upwards.
#[inline(always)]
fn coarse(output: i64) -> i64
    requires { unsigned_abs output ≤ 2 ^ 50 }
    ensures { result ≡ int_div_euclid (output +ℤ pos (2 ^ 11)) (pos (2 ^ 12)) }
{
    (output + 2048) >> 12
}

#[inline(always)]
fn held_weighted(value: i64) -> i32
    ensures value { result ≡ held (2 ^ 30) value }
    ensures small { unsigned_abs result ≤ 2 ^ 30 }
{
    (-(1i64 << 30)).max((1i64 << 30).min(value)) as i32
}
