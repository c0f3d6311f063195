//! The peak of a channel in pieces.
ghost use Rattle.std.specs.Prelude.{◌≡◌, ◌≤◌, ◌+◌, ℕ, ℤ, List, [], ◌++◌, length, All};
ghost use Rattle.lib_base.specs.Sounds.{IsSample};
ghost use Rattle.lib_base.specs.declared.limits.TheConstants.{LEAST_DEPTH, GREATEST_DEPTH};
ghost use Rattle.sound_model.specs.Peaks.{peak_over};

use crate::runs::Run;
use lib_base::PEAK_REACH;

/// The true peak of one channel.
#[derive(Clone, Copy, Debug)]
pub struct PeakMeter {
    run: Run,
}

impl PeakMeter {
    ghost use Rattle.true_peak.specs.Heard.{WasFed};

    /// A meter that was fed nothing so far.
    pub fn new() -> PeakMeter
        ensures { (depth : ℕ) → WasFed result depth [] }
    {
        PeakMeter { run: Run::new() }
    }

    /// Feeds a piece of the channel's samples of `depth` bits.
    pub fn feed(&mut self, samples: &[i32], depth: u32)
        requires low { LEAST_DEPTH ≤ depth }
        requires high { depth ≤ GREATEST_DEPTH }
        requires within { All (IsSample depth) samples.now }
        ensures { (fed : List ℤ) → WasFed self.old depth fed
            → WasFed self.new depth (fed ++ samples.now) }
    {
        self.run = self.run.over_samples(samples, depth);
    }

    /// The peak of what was fed, in units of 2^-36 of full scale, with the eleven places past its end.
    ///
    /// Where every piece was of one depth, it is the peak of all samples, however they were cut.
    pub fn finish(self) -> u64
        ensures { (depth : ℕ) (fed : List ℤ) → WasFed self depth fed
            → result ≡ peak_over depth fed 0 (length fed + PEAK_REACH) }
    {
        self.run.over_silence(PEAK_REACH as u64).greatest
    }
}
