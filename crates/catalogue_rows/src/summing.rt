//! Summaries compared with those that tallies answer.
ghost use Rattle.std.specs.Prelude.{◌≡◌, ◌<◌, ℕ, List, length};
ghost use Rattle.lib_base.specs.declared.files.Measured.{Measured};
ghost use Rattle.album_merge.specs.Members.{IsAlbumOf, measured_of};
ghost use Rattle.album_merge.specs.Tallies.{StandsForMeasured};
ghost use Rattle.library_model.specs.RowRules.{other_album_summary, other_recording_summary};
ghost use Rattle.sound_model.specs.Albums.{SummarisesMeasured, IsAlbumSummary};
ghost use Rattle.catalogue_rows.specs.Opening.{AreAlbumsOf, IsBuilt, IsFirstAnswer, IsFirstOther, IsOther};

use crate::building::Built;
use album_merge::{Album, TrackTally};
use keeper_store::{AlbumRow, RecordingRow, Tables};
use lib_base::Steps;
use library_model::{BadRow, RowRule, RowTable};
use std::marker::Brand;
use std::sync::ledger::{Blank, Ledger};

/// The first row, of albums and then of recordings, with another summary than its own.
pub(crate) fn first_other(tables: &Tables, built: &Built) -> Option<BadRow>
    requires { IsBuilt tables.now tables.now.recordings built.now }
    ensures { IsFirstAnswer tables.now result }
{
    let rows = tables.albums.as_slice();
    let album = first_other_album::<Brand>(rows, built.albums.as_slice(), Blank::new(1));
    album.or(built.other)
}

/// The first album with another summary than its own.
fn first_other_album<L: Ledger>(rows: &[AlbumRow], albums: &[Album], blank: Blank) -> Option<BadRow>
    requires name { blank.name ≡ L.name }
    requires parts { blank.parts ≡ L.parts }
    requires some { 0 < blank.parts }
    requires long { length albums.now ≡ length rows.now }
    ensures { (of : ℕ → List (ℕ × Measured)) → AreAlbumsOf of rows.now albums.now
        → IsFirstOther (λ row. IsAlbumSummary (measured_of (of row.id)) row.summary) other_album_summary rows.now result }
{
    let mut steps: Steps<L> = Steps::new(blank);
    let mut place = 0usize;
    while place < rows.len() {
        let bad = other_album(&albums[place], &rows[place], &mut steps);
        if bad.is_some() {
            return bad;
        }
        place += 1;
    }
    None
}

/// The bad row of an album whose summary is not its own.
fn other_album<L: Ledger>(album: &Album, row: &AlbumRow, steps: &mut Steps<L>) -> Option<BadRow>
    ensures { (recordings : List (ℕ × Measured)) → IsAlbumOf album.now recordings
        → IsOther (IsAlbumSummary (measured_of recordings) row.now.summary) (other_album_summary row.now) result }
{
    if album.summary(steps) == row.summary {
        return None;
    }
    Some(BadRow {
        table: RowTable::Albums,
        id: u64::from(row.id),
        rule: RowRule::OtherSummary,
    })
}

/// The bad row of a recording whose summary is not that of its tally.
pub(crate) fn other_recording(tally: &TrackTally, row: &RecordingRow) -> Option<BadRow>
    ensures { (measured : Measured) → StandsForMeasured tally.now measured
        → IsOther (SummarisesMeasured measured row.now.summary) (other_recording_summary row.now) result }
{
    if tally.summary() == row.summary {
        return None;
    }
    Some(BadRow {
        table: RowTable::Recordings,
        id: u64::from(row.id),
        rule: RowRule::OtherSummary,
    })
}
