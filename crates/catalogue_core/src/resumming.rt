//! The rows of albums whose recordings a change makes others.
ghost use Rattle.std.specs.Prelude.{◌≡◌, ◌++◌, true, Some, map, IfOk, OnOk};
ghost use Rattle.lib_base.specs.declared.files.Measured.{Measured};
ghost use Rattle.keeper_store.specs.declared.contents.Change.TheVariants as change;
ghost use Rattle.album_merge.specs.Tallies.{StandsForMeasured};
ghost use Rattle.library_model.specs.RowRules.{has_album};
ghost use Rattle.catalogue_rows.specs.Room.{HasPlaceIn};
ghost use Rattle.catalogue_rows.specs.Trying.{IsSumIn};
ghost use Rattle.catalogue_core.specs.Kept.{Holds};
ghost use Rattle.catalogue_core.specs.Resumming.{HasLevels, IsResummedIn, JoinsNamed, KeepsRows, LeavesNamed, MovesIntoNamed, in_list};

use crate::Library;
use album_merge::TrackTally;
use keeper_store::{AlbumRow, Change, Tables};
use lib_base::{Memory, Steps, Summary};
use std::sync::ledger::Ledger;

/// The row of the album that is named, if one is, once a recording has this new take, which comes back.
pub(crate) fn resum_with<L: Ledger>(
    library: &mut Library,
    album: Option<u32>,
    id: u32,
    tally: TrackTally,
    steps: &mut Steps<L>,
) -> Result<(Option<AlbumRow>, TrackTally), Memory>
    requires { HasPlaceIn library.old.rows album }
    ensures row { (t next : Tables) → Holds library.old t → JoinsNamed album id tally t next
        → IfOk result (λ found. IsResummedIn t next album found.0) }
    ensures tally { (m : Measured) → StandsForMeasured tally m → IfOk result (λ found. StandsForMeasured found.1 m) }
    ensures kept { KeepsRows library.old library.new }
{
    let Some(album) = album else {
        return Ok((None, tally));
    };
    let (levels, tally) = library.rows.summary_with(album, id, tally, steps);
    let row = resummed(library, album, levels)?;
    Ok((row, tally))
}

/// The row of the album that is named, if one is, once a recording comes into it.
pub(crate) fn resum_moved<L: Ledger>(
    library: &mut Library,
    album: Option<u32>,
    id: u32,
    steps: &mut Steps<L>,
) -> Result<Option<AlbumRow>, Memory>
    requires { HasPlaceIn library.old.rows album }
    ensures row { (t next : Tables) → Holds library.old t → MovesIntoNamed album id t next
        → IfOk result (IsResummedIn t next album) }
    ensures kept { KeepsRows library.old library.new }
{
    let Some(album) = album else {
        return Ok(None);
    };
    let levels = library.rows.summary_with_moved(album, id, steps);
    resummed(library, album, levels)
}

/// The row of the album that is named, if one is, once a recording is not in it.
pub(crate) fn resum_without<L: Ledger>(
    library: &mut Library,
    album: Option<u32>,
    id: u32,
    steps: &mut Steps<L>,
) -> Result<Option<AlbumRow>, Memory>
    ensures row { (t next : Tables) → Holds library.old t → LeavesNamed album id t next
        → IfOk result (IsResummedIn t next album) }
    ensures kept { KeepsRows library.old library.new }
{
    let Some(album) = album else {
        return Ok(None);
    };
    let levels = library.rows.summary_without(album, id, steps);
    resummed(library, album, levels)
}

/// The row of an album with other levels, where it is there and has levels.
fn resummed(
    library: &Library,
    album: u32,
    levels: Option<Summary>,
) -> Result<Option<AlbumRow>, Memory>
    ensures { (t next : Tables) → Holds library.now t → HasLevels t next album levels
        → IfOk result (IsResummedIn t next (Some album)) }
{
    match levels {
        Some(summary) => row_with(library, album, summary),
        None => Ok(None),
    }
}

/// The row of an album with these levels, where it is there.
fn row_with(library: &Library, album: u32, summary: Summary) -> Result<Option<AlbumRow>, Memory>
    ensures { (t next : Tables) → Holds library.now t → has_album album t.albums ≡ true → IsSumIn next album summary
        → IfOk result (IsResummedIn t next (Some album)) }
{
    match library.rows.album(album) {
        Some(row) => Ok(Some(with_levels(row, summary)?)),
        None => Ok(None),
    }
}

/// The row with other levels.
fn with_levels(row: &AlbumRow, summary: Summary) -> Result<AlbumRow, Memory>
    ensures { IfOk result (λ made. made ≡ record row.now { summary = summary }) }
{
    Ok(AlbumRow {
        id: row.id,
        name: row.name.clone()?,
        summary,
    })
}

/// Puts an album's row last among changes, if there is one.
pub(crate) fn push_album(changes: &mut Vec<Change>, row: Option<AlbumRow>) -> Result<(), Memory>
    ensures { OnOk result (changes.new.items ≡ changes.old.items ++ map change.PutAlbum (in_list row)) }
{
    if let Some(row) = row {
        changes.push(Change::PutAlbum(row))?;
    }
    Ok(())
}
