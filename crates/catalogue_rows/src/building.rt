//! Albums and tallies made of tables, recording by recording.
ghost use Rattle.std.specs.Prelude.{◌≡◌, ◌<◌, ◌+◌, ℕ, [], None, IfOk, OnOk, length, take};
ghost use Rattle.library_model.specs.RowRules.{first_bad_row};
ghost use Rattle.catalogue_rows.specs.Opening.{AreAlbumsOf, IsBuilt};

use crate::measuring::tally_of;
use crate::placing::put_tally;
use crate::summing::other_recording;
use album_merge::{Album, TrackTally};
use keeper_store::{AlbumRow, Tables};
use lib_base::Memory;
use library_model::BadRow;
use std::alloc::Global;
use std::marker::Sync;
use std::thread::Threads;

/// What is made of tables: an album for each of their albums, a tally for each recording that is in
/// none, and the first recording with another summary than its own.
#[derive(Debug, Drop)]
pub(crate) struct Built {
    pub(crate) albums: Vec<Album>,
    pub(crate) tallies: Vec<Option<TrackTally>>,
    pub(crate) other: Option<BadRow>,
}

/// Builds what the tables make, of which no row breaks another rule than that of summaries.
pub(crate) fn build<R: Threads + Sync>(
    rt: &R,
    alloc: Global,
    tables: &Tables,
) -> Result<Built, Memory>
    requires { first_bad_row tables.now ≡ None }
    ensures { IfOk result (IsBuilt tables.now tables.now.recordings) }
{
    let mut built = Built {
        albums: empty_albums(alloc, tables.albums.as_slice())?,
        tallies: Vec::new(alloc),
        other: None,
    };
    let mut place = 0usize;
    while place < tables.recordings.as_slice().len() {
        built.take_in(rt, alloc, tables, place)?;
        place += 1;
    }
    Ok(built)
}

/// An album of no recording for each row.
fn empty_albums(alloc: Global, rows: &[AlbumRow]) -> Result<Vec<Album>, Memory>
    ensures { IfOk result (λ albums. AreAlbumsOf (λ id. []) rows.now albums.items) }
{
    let mut albums = Vec::new(alloc);
    for _row in rows {
        albums.push(Album::new(alloc)?)?;
    }
    Ok(albums)
}

impl Built {
    /// Takes in the recording of the row at a place, after those of all rows before it.
    fn take_in<R: Threads + Sync>(
        &mut self,
        rt: &R,
        alloc: Global,
        tables: &Tables,
        place: usize,
    ) -> Result<(), Memory>
        requires unbroken { first_bad_row tables.now ≡ None }
        requires inside { place < length tables.now.recordings }
        requires built { IsBuilt tables.now (take place tables.now.recordings) self.old }
        ensures { OnOk result (IsBuilt tables.now (take (place + 1) tables.now.recordings) self.new) }
    {
        let row = &tables.recordings.as_slice()[place];
        let tally = tally_of(rt, alloc, tables, row)?;
        self.other = self.other.or(other_recording(&tally, row));
        let own = put_tally(&mut self.albums, tables.albums.as_slice(), row, tally)?;
        self.tallies.push(own)?;
        Ok(())
    }
}
