//! Opening tables.
ghost use Rattle.std.specs.Prelude.{◌≡◌, None, IfOk, IfErr, OnOk};
ghost use Rattle.keeper_store.specs.Held.{RowsAscend};
ghost use Rattle.library_model.specs.RowRules.{first_bad_row, IsFirstBad};
ghost use Rattle.catalogue_rows.specs.Opening.{IsBuilt, TellsBad};
ghost use Rattle.catalogue_rows.specs.Holding.{Holds};

use crate::CatalogueRows;
use crate::building::{Built, build};
use crate::joining::{join_albums, join_recordings};
use crate::summing::first_other;
use keeper_store::Tables;
use kept_replies::KeptReplies;
use lib_base::Memory;
use library_model::BadRow;
use std::alloc::Global;
use std::marker::Sync;
use std::thread::Threads;

/// Why tables are not opened.
#[derive(Clone, Copy, Debug, PartialEq, Eq)]
pub enum NotOpened {
    /// The first row that breaks a rule.
    BadRow(BadRow),
    /// Want of memory.
    Memory,
}

/// The rows of tables, with a tally made of each recording. Each rule of rows is tried.
///
/// Its time grows with the rows and the segments, but for look-ups by halving.
pub fn open_rows<R: Threads + Sync>(
    rt: &R,
    alloc: Global,
    tables: Tables,
) -> Result<CatalogueRows, NotOpened>
    ensures holds { IfOk result (λ rows. Holds rows tables) }
    ensures unbroken { OnOk result (IsFirstBad tables None) }
    ensures bad { IfErr result (TellsBad tables) }
{
    match row_rules::first_bad(alloc, &tables) {
        Ok(None) => open_unbroken(rt, alloc, tables),
        Ok(Some(bad)) => Err(NotOpened::BadRow(bad)),
        Err(Memory) => Err(NotOpened::Memory),
    }
}

/// Opens tables of which no row breaks another rule than that of summaries.
fn open_unbroken<R: Threads + Sync>(
    rt: &R,
    alloc: Global,
    tables: Tables,
) -> Result<CatalogueRows, NotOpened>
    requires { first_bad_row tables ≡ None }
    ensures holds { IfOk result (λ rows. Holds rows tables) }
    ensures unbroken { OnOk result (IsFirstBad tables None) }
    ensures bad { IfErr result (TellsBad tables) }
{
    let built = match build(rt, alloc, &tables) {
        Ok(built) => built,
        Err(Memory) => return Err(NotOpened::Memory),
    };
    if let Some(bad) = first_other(&tables, &built) {
        return Err(NotOpened::BadRow(bad));
    }
    match keep(alloc, tables, built) {
        Ok(rows) => Ok(rows),
        Err(Memory) => Err(NotOpened::Memory),
    }
}

/// Keeps the rows of tables, each with what was made of it.
fn keep(alloc: Global, tables: Tables, built: Built) -> Result<CatalogueRows, Memory>
    requires order { RowsAscend tables }
    requires built { IsBuilt tables tables.recordings built }
    ensures { IfOk result (λ rows. Holds rows tables) }
{
    let albums = join_albums(alloc, tables.albums.into_vec(), built.albums)?;
    let recordings = join_recordings(alloc, tables.recordings.into_vec(), built.tallies)?;
    let replies = KeptReplies::of(alloc, tables.replies.into_vec())?;
    Ok(CatalogueRows {
        next_album: tables.next_album,
        next_recording: tables.next_recording,
        next_take: tables.next_take,
        albums,
        recordings,
        replies,
    })
}
