//! One album changed by a recording, or tried with the change.
ghost use Rattle.std.specs.Prelude.{◌≡◌, ◌≤◌, ◌<◌, ◌+◌, ℕ, List, Contains, IfSome, is_some, length, nat_lt, true};
ghost use Rattle.lib_base.specs.declared.files.Measured.{Measured};
ghost use Rattle.sound_model.specs.Albums.{IsAlbumSummary};
ghost use Rattle.album_merge.specs.Members.{IsAlbumOf, ids_of, measured_of, with_recording, without_recording};
ghost use Rattle.album_merge.specs.Tallies.{StandsForMeasured};

use album_merge::{Album, TrackTally};
use lib_base::{MOST_MEMBERS, Steps, Summary};
use std::sync::ledger::Ledger;

/// Whether the album has fewer recordings than it can have.
pub(crate) fn has_place(album: &Album) -> bool
    ensures { result ≡ nat_lt (length (ids_of album.now)) MOST_MEMBERS }
{
    (album.len() as u64) < MOST_MEMBERS
}

/// Puts a recording into an album, over the one of its id. Where the album is full without it, it is
/// left without it.
pub(crate) fn put_over(album: &mut Album, id: u32, tally: TrackTally)
    requires { 0 < album.old.spare }
    ensures album { (recordings : List (ℕ × Measured)) (measured : Measured) → IsAlbumOf album.old recordings
        → StandsForMeasured tally measured → length (without_recording id recordings) < MOST_MEMBERS
        → IsAlbumOf album.new (with_recording id measured (without_recording id recordings)) }
    ensures spare { album.old.spare ≤ album.new.spare + 1 }
{
    album.remove(id);
    if has_place(album) {
        album.add(id, tally);
    }
}

/// The levels that the album would have with a recording, over the one of its id, and the
/// recording's tally back. None where it is full without it.
pub(crate) fn try_with<L: Ledger>(
    album: &mut Album,
    id: u32,
    tally: TrackTally,
    steps: &mut Steps<L>,
) -> (Option<Summary>, TrackTally)
    requires { 0 < album.old.spare }
    ensures album { (recordings : List (ℕ × Measured)) → IsAlbumOf album.old recordings → IsAlbumOf album.new recordings }
    ensures spare { album.new.spare ≡ album.old.spare }
    ensures tally { (measured : Measured) → StandsForMeasured tally measured → StandsForMeasured result.1 measured }
    ensures summary { (recordings : List (ℕ × Measured)) (measured : Measured) → IsAlbumOf album.old recordings
        → StandsForMeasured tally measured
        → IfSome result.0 (IsAlbumSummary (measured_of (with_recording id measured (without_recording id recordings)))) }
    ensures some { (recordings : List (ℕ × Measured)) → IsAlbumOf album.old recordings
        → length (without_recording id recordings) < MOST_MEMBERS → is_some result.0 ≡ true }
    ensures counted { steps.old ≤ steps.new }
{
    match album.remove(id) {
        Some(replaced) => {
            let (summary, tally) = album.summary_with(id, tally, steps);
            album.add(id, replaced);
            (Some(summary), tally)
        }
        None => try_more(album, id, tally, steps),
    }
}

/// The levels that the album would have with a recording more, and the recording's tally back.
/// None where it is full.
fn try_more<L: Ledger>(
    album: &mut Album,
    id: u32,
    tally: TrackTally,
    steps: &mut Steps<L>,
) -> (Option<Summary>, TrackTally)
    requires spare { 0 < album.old.spare }
    requires fresh { ¬ Contains (ids_of album.old) id }
    ensures album { (recordings : List (ℕ × Measured)) → IsAlbumOf album.old recordings → IsAlbumOf album.new recordings }
    ensures spare { album.new.spare ≡ album.old.spare }
    ensures tally { (measured : Measured) → StandsForMeasured tally measured → StandsForMeasured result.1 measured }
    ensures summary { (recordings : List (ℕ × Measured)) (measured : Measured) → IsAlbumOf album.old recordings
        → StandsForMeasured tally measured → IfSome result.0 (IsAlbumSummary (measured_of (with_recording id measured recordings))) }
    ensures some { (recordings : List (ℕ × Measured)) → IsAlbumOf album.old recordings → length recordings < MOST_MEMBERS
        → is_some result.0 ≡ true }
    ensures counted { steps.old ≤ steps.new }
{
    if !has_place(album) {
        return (None, tally);
    }
    let (summary, tally) = album.summary_with(id, tally, steps);
    (Some(summary), tally)
}

/// The levels that the album would have without a recording, which it has or not.
pub(crate) fn try_without<L: Ledger>(album: &mut Album, id: u32, steps: &mut Steps<L>) -> Summary
    ensures album { (recordings : List (ℕ × Measured)) → IsAlbumOf album.old recordings → IsAlbumOf album.new recordings }
    ensures spare { album.new.spare ≡ album.old.spare }
    ensures summary { (recordings : List (ℕ × Measured)) → IsAlbumOf album.old recordings
        → IsAlbumSummary (measured_of (without_recording id recordings)) result }
    ensures counted { steps.old ≤ steps.new }
{
    let taken = album.remove(id);
    let summary = album.summary(steps);
    if let Some(tally) = taken {
        album.add(id, tally);
    }
    summary
}
