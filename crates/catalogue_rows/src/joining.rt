//! Rows joined with what is kept beside them.
ghost use Rattle.std.specs.Prelude.{◌≡◌, length, map, IfOk};
ghost use Rattle.catalogue_rows.specs.Holding.{album_row, album_members, recording_row, own_tally};

use crate::kept::{KeptAlbum, KeptRecording};
use album_merge::{Album, TrackTally};
use keeper_store::{AlbumRow, RecordingRow};
use lib_base::Memory;
use std::alloc::Global;

/// Rows of albums, each with its album.
pub(crate) fn join_albums(
    alloc: Global,
    rows: Vec<AlbumRow>,
    albums: Vec<Album>,
) -> Result<Vec<KeptAlbum>, Memory>
    requires { length rows.items ≡ length albums.items }
    ensures rows { IfOk result (λ kept. map album_row kept.items ≡ rows.items) }
    ensures albums { IfOk result (λ kept. map album_members kept.items ≡ albums.items) }
{
    let mut kept = Vec::with_capacity(alloc, rows.len())?;
    let mut albums = albums.into_iter();
    for row in rows {
        let Some(members) = albums.next() else {
            unreachable!()
        };
        kept.push(KeptAlbum { row, members })?;
    }
    Ok(kept)
}

/// Rows of recordings, each with its own tally, if it has one.
pub(crate) fn join_recordings(
    alloc: Global,
    rows: Vec<RecordingRow>,
    tallies: Vec<Option<TrackTally>>,
) -> Result<Vec<KeptRecording>, Memory>
    requires { length rows.items ≡ length tallies.items }
    ensures rows { IfOk result (λ kept. map recording_row kept.items ≡ rows.items) }
    ensures tallies { IfOk result (λ kept. map own_tally kept.items ≡ tallies.items) }
{
    let mut kept = Vec::with_capacity(alloc, rows.len())?;
    let mut tallies = tallies.into_iter();
    for row in rows {
        let Some(tally) = tallies.next() else {
            unreachable!()
        };
        kept.push(KeptRecording { row, tally })?;
    }
    Ok(kept)
}
