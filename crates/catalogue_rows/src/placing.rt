//! Tallies put where their rows say.
ghost use Rattle.std.specs.Prelude.{◌≡◌, ℕ, List, true, Some, IfOk, OnOk};
ghost use Rattle.lib_base.specs.declared.files.Measured.{Measured};
ghost use Rattle.keeper_store.specs.Puts.{album_less, Ascends};
ghost use Rattle.album_merge.specs.Members.{IsAlbumOf, with_recording};
ghost use Rattle.album_merge.specs.Tallies.{StandsForMeasured};
ghost use Rattle.library_model.specs.RowRules.{album_is_there, has_album};
ghost use Rattle.catalogue_rows.specs.Opening.{AreAlbumsOf, HavePlace, HasPlace, with_one, with_row};
ghost use Rattle.catalogue_rows.specs.Holding.{HasOwn};

use album_merge::{Album, TrackTally};
use keeper_store::{AlbumRow, RecordingRow, find_place};
use lib_base::Memory;

/// Puts a recording's tally into the album that its row names, or gives it back where it names
/// none.
pub(crate) fn put_tally(
    albums: &mut Vec<Album>,
    rows: &[AlbumRow],
    row: &RecordingRow,
    tally: TrackTally,
) -> Result<Option<TrackTally>, Memory>
    requires ascend { Ascends album_less rows.now }
    requires there { album_is_there row.now.album rows.now ≡ true }
    requires place { HavePlace row.now.album row.now.id rows.now albums.old.items }
    ensures own { IfOk result (λ own. (measured : Measured) → StandsForMeasured tally measured → HasOwn row.now.album own measured) }
    ensures albums { OnOk result ((of : ℕ → List (ℕ × Measured)) (measured : Measured) → StandsForMeasured tally measured
        → AreAlbumsOf of rows.now albums.old.items → AreAlbumsOf (with_row row.now measured of) rows.now albums.new.items) }
{
    match row.album {
        Some(album) => {
            put_into(albums, rows, album, row.id, tally)?;
            Ok(None)
        }
        None => Ok(Some(tally)),
    }
}

/// Puts a recording into the album of an id, found by halving.
fn put_into(
    albums: &mut Vec<Album>,
    rows: &[AlbumRow],
    album: u32,
    id: u32,
    tally: TrackTally,
) -> Result<(), Memory>
    requires ascend { Ascends album_less rows.now }
    requires there { has_album album rows.now ≡ true }
    requires place { HavePlace (Some album) id rows.now albums.old.items }
    ensures { OnOk result ((of : ℕ → List (ℕ × Measured)) (measured : Measured) → StandsForMeasured tally measured
        → AreAlbumsOf of rows.now albums.old.items → AreAlbumsOf (with_one album id measured of) rows.now albums.new.items) }
{
    let Some(place) = find_place(rows, album) else {
        unreachable!()
    };
    take_in(&mut albums[place], id, tally)
}

/// Puts a recording into an album.
fn take_in(album: &mut Album, id: u32, tally: TrackTally) -> Result<(), Memory>
    requires { HasPlace id album.old }
    ensures { OnOk result ((recordings : List (ℕ × Measured)) (measured : Measured) → IsAlbumOf album.old recordings
        → StandsForMeasured tally measured → IsAlbumOf album.new (with_recording id measured recordings)) }
{
    album.reserve(1)?;
    album.add(id, tally);
    Ok(())
}
