//! Tallies of recordings.
ghost use Rattle.std.specs.Prelude.{◌≡◌, ◌≤◌, ◌<◌, ◌*◌, ◌^◌, ℕ, filter, length, All, IfOk};
ghost use Rattle.lib_base.specs.declared.files.Measured.{Measured as Recording};
ghost use Rattle.lib_base.specs.declared.limits.TheConstants.{GREATEST_ENERGY, MOST_SAMPLES, GREATEST_PEAK, BLOCK_SEGMENTS, WINDOW_SEGMENTS, MOST_SEGMENTS};
ghost use Rattle.sound_model.specs.Albums.{SummarisesMeasured};
ghost use Rattle.sound_model.specs.Loudness.{is_audible};
ghost use Rattle.sound_model.specs.Ranges.{is_window_audible};
ghost use Rattle.sound_model.specs.Summaries.{IsWithinBounds};
ghost use Rattle.album_merge.specs.Tallies.{StandsForMeasured};

use crate::summaries::{greatest, summarise};
use lib_base::{Energies, Measured, Memory, Summary};
use std::alloc::Global;
use std::marker::{Model, Sync};
use std::thread::Threads;

/// What is kept of a recording to answer its levels, and those of albums with it: made once, so that
/// no question sums its segments again.
#[derive(Debug, Drop)]
pub struct TrackTally {
    blocks: Energies,
    windows: Energies,
    greatest_block: u128,
    greatest_window: u128,
    summary: Summary,
}

impl Model for TrackTally {
    ghost use Rattle.std.specs.Prelude.{filter};
    ghost use Rattle.sound_model.specs.Loudness.{is_audible};
    ghost use Rattle.sound_model.specs.Ranges.{is_window_audible};
    ghost use Rattle.album_merge.specs.Bounds.{AreBounded};
    ghost use Rattle.album_merge.specs.Tallies.{Tallied};

    ghost Value = { Tallied };

    ghost view = { λ t. record {
      summary = t.summary;
      blocks = filter is_audible t.blocks;
      windows = filter is_window_audible t.windows;
      greatest_block = t.greatest_block;
      greatest_window = t.greatest_window;
    } };

    ghost invariant = { λ t. AreBounded t.blocks t.windows t.greatest_block t.greatest_window t.summary };
}

impl TrackTally {
    /// The tally of what was measured of a recording.
    ///
    /// Its only refusal is want of memory. It takes the runtime, since threads may share the work.
    pub fn make<R: Threads + Sync>(
        rt: &R,
        alloc: Global,
        measured: &Measured,
    ) -> Result<TrackTally, Memory>
        requires { IsWithinBounds measured.now }
        ensures { IfOk result (λ tally. StandsForMeasured tally measured.now) }
    {
        let _ = rt;
        let blocks = gate_blocks::blocks(alloc, measured.energies.as_slice())?;
        let windows = gate_blocks::windows(alloc, measured.energies.as_slice())?;
        let summary = summarise(
            alloc,
            measured.frames,
            blocks.as_slice(),
            windows.as_slice(),
            measured.peak,
        )?;
        Ok(TrackTally {
            greatest_block: greatest(blocks.as_slice()),
            greatest_window: greatest(windows.as_slice()),
            blocks,
            windows,
            summary,
        })
    }

    /// The levels of the recording. It takes no memory.
    pub fn summary(&self) -> Summary
        ensures value { (measured : Recording) → StandsForMeasured self.now measured → SummarisesMeasured measured result }
        ensures kept { result ≡ self.now.summary }
        ensures frames { result.frames ≤ MOST_SAMPLES }
        ensures peak { result.peak ≤ GREATEST_PEAK }
    {
        self.summary
    }

    /// The energies of its blocks.
    pub(crate) fn blocks(&self) -> &[u128]
        ensures audible { filter is_audible result.now ≡ self.now.blocks }
        ensures within { All (λ z. z ≤ BLOCK_SEGMENTS * GREATEST_ENERGY) result.now }
        ensures few { length result.now ≤ MOST_SEGMENTS }
    {
        self.blocks.as_slice()
    }

    /// The energies of its windows.
    pub(crate) fn windows(&self) -> &[u128]
        ensures audible { filter is_window_audible result.now ≡ self.now.windows }
        ensures within { All (λ z. z ≤ self.now.greatest_window) result.now }
        ensures small { All (λ (z : ℕ). z < 2 ^ 87) result.now }
        ensures few { length result.now ≤ MOST_SEGMENTS }
    {
        self.windows.as_slice()
    }

    /// The energy of its greatest block, 0 where it has none.
    pub(crate) fn greatest_block(&self) -> u128
        ensures value { result ≡ self.now.greatest_block }
        ensures within { result ≤ BLOCK_SEGMENTS * GREATEST_ENERGY }
    {
        self.greatest_block
    }

    /// The energy of its greatest window, 0 where it has none.
    pub(crate) fn greatest_window(&self) -> u128
        ensures value { result ≡ self.now.greatest_window }
        ensures within { result ≤ WINDOW_SEGMENTS * GREATEST_ENERGY }
    {
        self.greatest_window
    }
}
