//! What an album answers.
ghost use Rattle.std.specs.Prelude.{◌≡◌, ◌≤◌, ℕ, List, unsigned_abs, IfSome};
ghost use Rattle.lib_base.specs.declared.files.Measured.{Measured};
ghost use Rattle.lib_base.specs.declared.limits.TheConstants.{GREATEST_PEAK};
ghost use Rattle.sound_model.specs.Albums.{IsAlbumSummary, album_frames, album_blocks, album_windows, album_peak};
ghost use Rattle.sound_model.specs.Loudness.{IsLoudness, IfThere, IsBlockLevel, IsWindowLevel, above_zero, greatest};
ghost use Rattle.sound_model.specs.Ranges.{IsRange};

use crate::Album;
use crate::loudness::loudness_of;
use crate::members::{frames_of, greatest_block_of, greatest_window_of, peak_of};
use crate::ranges::range_of;
use crate::summaries::{gain_for, peak_level};
use gate_blocks::{block_level, window_level};
use lib_base::{Steps, Summary};
use std::sync::ledger::Ledger;

/// None of these takes memory. Levels are in hundredths, and absent where they can't be measured.
impl Album {
    ghost use Rattle.album_merge.specs.Members.{IsAlbumOf, measured_of};

    /// Its loudness in hundredths of LUFS.
    pub fn loudness<L: Ledger>(&self, steps: &mut Steps<L>) -> Option<i32>
        ensures value { (recordings : List (ℕ × Measured)) → IsAlbumOf self.now recordings
            → IsLoudness (album_blocks (measured_of recordings)) result }
        ensures small { IfSome result (λ v. unsigned_abs v ≤ 28000) }
        ensures counted { steps.old ≤ steps.new }
    {
        let _ = steps;
        loudness_of(self.members())
    }

    /// Its loudness range in hundredths of LU.
    pub fn range<L: Ledger>(&self, steps: &mut Steps<L>) -> Option<i32>
        ensures value { (recordings : List (ℕ × Measured)) → IsAlbumOf self.now recordings
            → IsRange (album_windows (measured_of recordings)) result }
        ensures counted { steps.old ≤ steps.new }
    {
        let _ = steps;
        range_of(self.members())
    }

    /// The greatest momentary loudness of its recordings, in hundredths of LUFS.
    pub fn momentary(&self) -> Option<i32>
        ensures { (recordings : List (ℕ × Measured)) → IsAlbumOf self.now recordings
            → IfThere IsBlockLevel (above_zero (greatest (album_blocks (measured_of recordings)))) result }
    {
        block_level(greatest_block_of(self.members()))
    }

    /// The greatest short-term loudness of its recordings, in hundredths of LUFS.
    pub fn short_term(&self) -> Option<i32>
        ensures { (recordings : List (ℕ × Measured)) → IsAlbumOf self.now recordings
            → IfThere IsWindowLevel (above_zero (greatest (album_windows (measured_of recordings)))) result }
    {
        window_level(greatest_window_of(self.members()))
    }

    /// The greatest peak of its recordings, in units of 2^-36 of full scale.
    pub fn peak(&self) -> u64
        ensures value { (recordings : List (ℕ × Measured)) → IsAlbumOf self.now recordings
            → result ≡ album_peak (measured_of recordings) }
        ensures within { result ≤ GREATEST_PEAK }
    {
        peak_of(self.members())
    }

    /// The frames of all its recordings.
    pub fn frames(&self) -> u64
        ensures { (recordings : List (ℕ × Measured)) → IsAlbumOf self.now recordings
            → result ≡ album_frames (measured_of recordings) }
    {
        frames_of(self.members())
    }

    /// All its levels.
    pub fn summary<L: Ledger>(&self, steps: &mut Steps<L>) -> Summary
        ensures value { (recordings : List (ℕ × Measured)) → IsAlbumOf self.now recordings
            → IsAlbumSummary (measured_of recordings) result }
        ensures counted { steps.old ≤ steps.new }
    {
        let loudness = self.loudness(steps);
        let peak = self.peak();
        Summary {
            frames: self.frames(),
            loudness,
            range: self.range(steps),
            momentary: self.momentary(),
            short_term: self.short_term(),
            true_peak: peak_level(peak),
            peak,
            gain: gain_for(loudness),
        }
    }
}
