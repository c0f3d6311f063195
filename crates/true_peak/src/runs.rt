//! A run over places, which keeps the greatest size so far.
ghost use Rattle.std.specs.Prelude.{◌≡◌, ◌≤◌, ◌<◌, ◌+◌, ◌-◌, ◌*◌, ◌^◌, ℕ, ℤ, pos, List, length, take, max, All, IsTrue, ◌↔◌, unsigned_abs};
ghost use Rattle.lib_base.specs.Sounds.{IsSample, part};
ghost use Rattle.lib_base.specs.declared.limits.TheConstants.{LEAST_DEPTH, GREATEST_DEPTH};
ghost use Rattle.sound_model.specs.Peaks.{sample_before};
ghost use Rattle.true_peak.specs.Windows.{history_at, size_after};

use crate::history::History;
use lib_base::scaled;

/// A run over places.
///
/// No place can raise the peak where its twelve samples are low: 16571, the greatest sum of a phase's
/// taps, times each is at most the peak so far. So the last samples that are low are counted.
#[derive(Clone, Copy, Debug)]
pub struct Run {
    pub history: History,
    pub greatest: u64,
    low: u8,
    ghost few: { low ≤ 11 },
    ghost are_low: { All (λ v. 16571 * unsigned_abs v ≤ greatest) (take low history.before) },
}

impl Run {
    ghost use Rattle.true_peak.specs.Heard.{Heard};

    /// A run over no place so far, from the first one on.
    pub fn new() -> Run
        ensures { (depth : ℕ) (samples : List ℤ) → Heard result depth samples 0 0 }
    {
        Run {
            history: History::silent(),
            greatest: 0,
            low: 0,
        }
    }

    /// A run over no place so far, from the place behind this history on.
    pub fn behind(history: History) -> Run
        ensures { (depth : ℕ) (samples : List ℤ) (place : ℕ)
            → history.before ≡ history_at depth samples place
            → Heard result depth samples place place }
    {
        Run {
            history,
            greatest: 0,
            low: 0,
        }
    }

    /// The run over one more place, at which this scaled sample is.
    #[inline(always)]
    pub fn over(self, value: i64) -> Run
        requires { unsigned_abs value ≤ 2 ^ 23 }
        ensures { (depth : ℕ) (samples : List ℤ) (first place : ℕ) → first ≤ place
            → value ≡ sample_before depth samples place 0
            → Heard self depth samples first place → Heard result depth samples first (place + 1) }
    {
        let is_low = self.is_low(value);
        Run {
            history: self.history.after(value),
            greatest: self.greatest_with(value, is_low),
            low: self.low_with(is_low),
        }
    }

    /// Whether a sample can't raise the peak with others that are low.
    #[inline(always)]
    fn is_low(self, value: i64) -> bool
        requires { unsigned_abs value ≤ 2 ^ 23 }
        ensures { IsTrue result ↔ (16571 * unsigned_abs value ≤ self.greatest) }
    {
        16_571 * value.unsigned_abs() <= self.greatest
    }

    /// The greatest size with the next place.
    #[inline(always)]
    fn greatest_with(self, value: i64, is_low: bool) -> u64
        requires small { unsigned_abs value ≤ 2 ^ 23 }
        requires low { IsTrue is_low → 16571 * unsigned_abs value ≤ self.greatest }
        ensures { result ≡ max self.greatest (size_after value self.history.before) }
    {
        if is_low && self.low == 11 {
            self.greatest
        } else {
            self.greatest.max(self.history.size(value))
        }
    }

    /// How many of the last samples are low, with one more.
    #[inline(always)]
    fn low_with(self, is_low: bool) -> u8
        ensures few { result ≤ 11 }
        ensures more { result ≤ self.low + 1 }
        ensures some { 0 < result → IsTrue is_low }
    {
        if is_low { (self.low + 1).min(11) } else { 0 }
    }

    /// The run over the places of these samples of `depth` bits.
    pub fn over_samples(self, samples: &[i32], depth: u32) -> Run
        requires low { LEAST_DEPTH ≤ depth }
        requires high { depth ≤ GREATEST_DEPTH }
        requires within { All (IsSample depth) samples.now }
        ensures { (all : List ℤ) (first place : ℕ) → first ≤ place
            → samples.now ≡ part all place (length samples.now)
            → Heard self depth all first place
            → Heard result depth all first (place + length samples.now) }
    {
        let mut run = self;
        for i in 0..samples.len() {
            run = run.over(scaled(samples[i], depth));
        }
        run
    }

    /// The run over so many places past the end.
    pub fn over_silence(self, count: u64) -> Run
        ensures { (depth : ℕ) (all : List ℤ) (first place : ℕ) → first ≤ place
            → (0 < count → length all ≤ place)
            → Heard self depth all first place → Heard result depth all first (place + count) }
    {
        let mut passed = self;
        for _i in 0..count {
            passed = passed.over(0);
        }
        passed
    }
}
