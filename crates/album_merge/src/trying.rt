//! What an album would answer after a change: the change is made, summed, and undone.
ghost use Rattle.std.specs.Prelude.{◌≡◌, ◌≤◌, ◌<◌, ℕ, List, Contains, length};
ghost use Rattle.lib_base.specs.declared.files.Measured.{Measured};
ghost use Rattle.lib_base.specs.declared.limits.TheConstants.{MOST_MEMBERS};
ghost use Rattle.sound_model.specs.Albums.{IsAlbumSummary};
ghost use Rattle.album_merge.specs.Tallies.{StandsForMeasured};

use crate::{Album, TrackTally};
use lib_base::{Steps, Summary};
use std::sync::ledger::Ledger;

/// None of these takes memory, and the album stands for the same recordings before and after.
impl Album {
    ghost use Rattle.album_merge.specs.Members.{IsAlbumOf, ids_of, measured_of, with_recording, without_recording};

    /// The levels that the album would have with a recording more, and the recording's tally back.
    pub fn summary_with<L: Ledger>(
        &mut self,
        id: u32,
        tally: TrackTally,
        steps: &mut Steps<L>,
    ) -> (Summary, TrackTally)
        requires spare { 0 < self.old.spare }
        requires fresh { ¬ Contains (ids_of self.old) id }
        requires few { length (ids_of self.old) < MOST_MEMBERS }
        ensures summary { (recordings : List (ℕ × Measured)) (measured : Measured) → IsAlbumOf self.old recordings
            → StandsForMeasured tally measured → IsAlbumSummary (measured_of (with_recording id measured recordings)) result.0 }
        ensures tally { (measured : Measured) → StandsForMeasured tally measured → StandsForMeasured result.1 measured }
        ensures album { (recordings : List (ℕ × Measured)) → IsAlbumOf self.old recordings → IsAlbumOf self.new recordings }
        ensures ids { ids_of self.new ≡ ids_of self.old }
        ensures spare { self.new.spare ≡ self.old.spare }
        ensures counted { steps.old ≤ steps.new }
    {
        self.sum_with(id, tally, steps)
    }

    /// The levels that the album would have without one of its recordings.
    pub fn summary_without<L: Ledger>(&mut self, id: u32, steps: &mut Steps<L>) -> Summary
        requires { Contains (ids_of self.old) id }
        ensures summary { (recordings : List (ℕ × Measured)) → IsAlbumOf self.old recordings
            → IsAlbumSummary (measured_of (without_recording id recordings)) result }
        ensures album { (recordings : List (ℕ × Measured)) → IsAlbumOf self.old recordings → IsAlbumOf self.new recordings }
        ensures ids { ids_of self.new ≡ ids_of self.old }
        ensures spare { self.new.spare ≡ self.old.spare }
        ensures counted { steps.old ≤ steps.new }
    {
        let Some(tally) = self.take_out(id) else {
            unreachable!()
        };
        let summary = self.summary(steps);
        self.put_in(id, tally);
        summary
    }

    /// The levels that the album would have with another take of one of its recordings, and the
    /// take's tally back.
    pub fn summary_replacing<L: Ledger>(
        &mut self,
        id: u32,
        tally: TrackTally,
        steps: &mut Steps<L>,
    ) -> (Summary, TrackTally)
        requires { Contains (ids_of self.old) id }
        ensures summary { (recordings : List (ℕ × Measured)) (measured : Measured) → IsAlbumOf self.old recordings
            → StandsForMeasured tally measured
            → IsAlbumSummary (measured_of (with_recording id measured (without_recording id recordings))) result.0 }
        ensures tally { (measured : Measured) → StandsForMeasured tally measured → StandsForMeasured result.1 measured }
        ensures album { (recordings : List (ℕ × Measured)) → IsAlbumOf self.old recordings → IsAlbumOf self.new recordings }
        ensures ids { ids_of self.new ≡ ids_of self.old }
        ensures spare { self.new.spare ≡ self.old.spare }
        ensures counted { steps.old ≤ steps.new }
    {
        let Some(replaced) = self.take_out(id) else {
            unreachable!()
        };
        let (summary, tally) = self.sum_with(id, tally, steps);
        self.put_in(id, replaced);
        (summary, tally)
    }

    /// Puts a recording in, sums, and takes it out.
    fn sum_with<L: Ledger>(
        &mut self,
        id: u32,
        tally: TrackTally,
        steps: &mut Steps<L>,
    ) -> (Summary, TrackTally)
        requires spare { 0 < self.old.spare }
        requires fresh { ¬ Contains (ids_of self.old) id }
        requires few { length (ids_of self.old) < MOST_MEMBERS }
        ensures summary { (recordings : List (ℕ × Measured)) (measured : Measured) → IsAlbumOf self.old recordings
            → StandsForMeasured tally measured → IsAlbumSummary (measured_of (with_recording id measured recordings)) result.0 }
        ensures tally { (measured : Measured) → StandsForMeasured tally measured → StandsForMeasured result.1 measured }
        ensures members { self.new.members ≡ self.old.members }
        ensures spare { self.new.spare ≡ self.old.spare }
        ensures counted { steps.old ≤ steps.new }
    {
        self.put_in(id, tally);
        let summary = self.summary(steps);
        let Some(tally) = self.take_out(id) else {
            unreachable!()
        };
        (summary, tally)
    }
}
