//! A channel on its way through the filter into the meter of segments, and into that of its peak.
ghost use Rattle.std.specs.Prelude.{◌≡◌, ◌≤◌, ◌+◌, ℕ, ℤ, List, [], ◌++◌, length, All, true, false, is_some, if◌then◌else◌, IfOk, IfSome};
ghost use Rattle.lib_base.specs.Sounds.{IsSample};
ghost use Rattle.lib_base.specs.declared.limits.TheConstants.{LEAST_DEPTH, GREATEST_DEPTH, PEAK_REACH};
ghost use Rattle.sound_model.specs.Peaks.{peak_over};
ghost use Rattle.true_peak.specs.Heard.{WasFed};
ghost use Rattle.measure_pool.specs.Jobs.{found_in};
ghost use Rattle.measure_pool.specs.Lines.{IsFed, takes_peak, fed_count, room_of};

use crate::found::Found;
use gate_blocks::SegmentMeter;
use k_filter::Filter;
use lib_base::{Memory, SAMPLE_RATE};
use std::alloc::Global;
use true_peak::PeakMeter;

/// A filter with a meter of what leaves it, and, where the peak is taken in the same pass, a meter of
/// what enters it.
#[derive(Drop)]
pub struct Line {
    filter: Filter,
    meter: SegmentMeter,
    peak: Option<PeakMeter>,
}

impl Line {
    /// A line that was fed nothing, with room for so many frames, and takes the energies.
    pub fn of_energies(alloc: Global, frames: u64) -> Result<Line, Memory>
        ensures fed { IfOk result (λ line. (depth : ℕ) → IsFed line depth []) }
        ensures count { IfOk result (λ line. fed_count line ≡ 0) }
        ensures room { IfOk result (λ line. room_of line ≡ frames) }
        ensures peak { IfOk result (λ line. takes_peak line ≡ false) }
    {
        let meter = SegmentMeter::new(alloc, frames)?;
        Ok(Line {
            filter: Filter::new(SAMPLE_RATE),
            meter,
            peak: None,
        })
    }

    /// One that takes the energies and the peak.
    pub fn of_both(alloc: Global, frames: u64) -> Result<Line, Memory>
        ensures fed { IfOk result (λ line. (depth : ℕ) → IsFed line depth []) }
        ensures count { IfOk result (λ line. fed_count line ≡ 0) }
        ensures room { IfOk result (λ line. room_of line ≡ frames) }
        ensures peak { IfOk result (λ line. takes_peak line ≡ true) }
    {
        let meter = SegmentMeter::new(alloc, frames)?;
        Ok(Line {
            filter: Filter::new(SAMPLE_RATE),
            meter,
            peak: Some(PeakMeter::new()),
        })
    }

    /// Takes further samples, and leaves in `filtered` what they are weighted.
    pub fn feed(&mut self, samples: &[i32], depth: u32, filtered: &mut [i32])
        requires equal { length samples.now ≡ length filtered.old }
        requires low { LEAST_DEPTH ≤ depth }
        requires high { depth ≤ GREATEST_DEPTH }
        requires within { All (IsSample depth) samples.now }
        requires room { fed_count self.old + length samples.now ≤ room_of self.old }
        ensures fed { (fed : List ℤ) → IsFed self.old depth fed → IsFed self.new depth (fed ++ samples.now) }
        ensures count { fed_count self.new ≡ fed_count self.old + length samples.now }
        ensures room { room_of self.new ≡ room_of self.old }
        ensures peak { takes_peak self.new ≡ takes_peak self.old }
    {
        self.peak = fed_further(self.peak, samples, depth);
        self.filter.feed(samples, depth, filtered);
        self.meter.feed(filtered);
    }

    /// What was found in the samples that it was fed.
    pub fn into_found(self) -> Found
        ensures { (depth : ℕ) (fed : List ℤ) → IsFed self depth fed
            → result ≡ found_in (takes_peak self) depth fed }
    {
        let peak = peak_of(self.peak);
        let energies = self.meter.into_energies();
        Found {
            energies: Some(energies),
            peak,
        }
    }
}

/// The meter, fed further samples, where there is one.
fn fed_further(peak: Option<PeakMeter>, samples: &[i32], depth: u32) -> Option<PeakMeter>
    requires low { LEAST_DEPTH ≤ depth }
    requires high { depth ≤ GREATEST_DEPTH }
    requires within { All (IsSample depth) samples.now }
    ensures fed { (fed : List ℤ) → IfSome peak (λ meter. WasFed meter depth fed)
        → IfSome result (λ meter. WasFed meter depth (fed ++ samples.now)) }
    ensures kept { is_some result ≡ is_some peak }
{
    match peak {
        Some(mut meter) => {
            meter.feed(samples, depth);
            Some(meter)
        }
        None => None,
    }
}

/// The peak of what the meter was fed, and 0 where there is none.
fn peak_of(peak: Option<PeakMeter>) -> u64
    ensures { (depth : ℕ) (fed : List ℤ) → IfSome peak (λ meter. WasFed meter depth fed)
        → result ≡ (if is_some peak then peak_over depth fed 0 (length fed + PEAK_REACH) else 0) }
{
    match peak {
        Some(meter) => meter.finish(),
        None => 0,
    }
}
