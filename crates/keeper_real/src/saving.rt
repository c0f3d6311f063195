//! Changes made in the database.
ghost use Rattle.std.specs.Prelude.{◌≡◌, OnOk};
ghost use Rattle.sqlite.specs.State.{HasCleanDisk};
ghost use Rattle.sqlite.specs.Held.{state};

use crate::refusals::Refusal;
use crate::schema::kind_name;
use keeper_store::{AlbumRow, Batch, Change, RecordingRow, ReplyRow};
use lib_base::Summary;
use sqlite::types::ValueRef;
use sqlite::{Alter, Connection, Transaction, params};

const PUT_COUNTERS: &str = "INSERT OR REPLACE INTO counters VALUES (1, ?1, ?2, ?3)";

const PUT_ALBUM: &str =
    "INSERT OR REPLACE INTO albums VALUES (?1, ?2, ?3, ?4, ?5, ?6, ?7, ?8, ?9, ?10)";

const PUT_RECORDING: &str = "INSERT OR REPLACE INTO recordings VALUES \
    (?1, ?2, ?3, ?4, ?5, ?6, ?7, ?8, ?9, ?10, ?11, ?12, ?13, ?14, ?15, ?16)";

const PUT_SEGMENTS: &str = "INSERT OR REPLACE INTO segments VALUES (?1, ?2)";

const PUT_REPLY: &str = "INSERT OR REPLACE INTO replies VALUES (?1, ?2, ?3, ?4)";

const DROP_ALBUM: &str = "DELETE FROM albums WHERE id = ?1";

const DROP_RECORDING: &str = "DELETE FROM recordings WHERE id = ?1";

const DROP_SEGMENTS: &str = "DELETE FROM segments WHERE take = ?1";

/// Shows that a transaction was committed. `commit` alone makes one.
#[derive(Drop)]
pub(crate) struct Committed {
    _by_commit: (),
}

/// Makes all the changes of the batch in one transaction, or none.
pub(crate) fn make_batch<S: Alter>(
    database: &mut Connection<S>,
    batch: &Batch,
) -> Result<Committed, Refusal> {
    if !database.is_autocommit() {
        return Err(Refusal::STATE);
    }
    let mut work = database.transaction();
    make_all(&mut work, batch)?;
    commit(work)
}

/// Commits what the transaction has done.
pub(crate) fn commit<S: Alter>(work: Transaction<'_, S>) -> Result<Committed, Refusal>
    ensures { HasCleanDisk (state S.Store work.exit.0.now) → OnOk result
        ((state S.Store work.exit.0.now).committed ≡ (state S.Store work.entry.conn.now).now) }
{
    work.commit()?;
    Ok(Committed { _by_commit: () })
}

/// Makes the changes one after another.
fn make_all<S: Alter>(work: &mut Transaction<'_, S>, batch: &Batch) -> Result<(), Refusal> {
    for change in batch.changes.as_slice() {
        make(work, change)?;
    }
    Ok(())
}

/// Makes one change.
fn make<S: Alter>(work: &mut Transaction<'_, S>, change: &Change) -> Result<(), Refusal> {
    match change {
        Change::Counters {
            next_album,
            next_recording,
            next_take,
        } => run(
            work,
            PUT_COUNTERS,
            params![*next_album, *next_recording, *next_take],
        ),
        Change::PutAlbum(row) => put_album(work, row),
        Change::PutRecording(row) => put_recording(work, row),
        Change::PutSegments(row) => run(
            work,
            PUT_SEGMENTS,
            params![row.take, row.energies.as_slice()],
        ),
        Change::PutReply(row) => put_reply(work, row),
        Change::DropAlbum { id } => run(work, DROP_ALBUM, params![*id]),
        Change::DropRecording { id } => run(work, DROP_RECORDING, params![*id]),
        Change::DropSegments { take } => run(work, DROP_SEGMENTS, params![*take]),
    }
}

fn put_album<S: Alter>(work: &mut Transaction<'_, S>, row: &AlbumRow) -> Result<(), Refusal> {
    let levels = &row.summary;
    let Some((frames, peak)) = counts(levels) else {
        return Err(Refusal::Row {
            table: "albums",
            id: i64::from(row.id),
        });
    };
    run(
        work,
        PUT_ALBUM,
        params![
            row.id,
            row.name.as_str(),
            frames,
            levels.loudness,
            levels.range,
            levels.momentary,
            levels.short_term,
            levels.true_peak,
            peak,
            levels.gain,
        ],
    )
}

fn put_recording<S: Alter>(
    work: &mut Transaction<'_, S>,
    row: &RecordingRow,
) -> Result<(), Refusal> {
    let levels = &row.summary;
    let Some((frames, peak)) = counts(levels) else {
        return Err(Refusal::Row {
            table: "recordings",
            id: i64::from(row.id),
        });
    };
    run(
        work,
        PUT_RECORDING,
        params![
            row.id,
            row.album,
            row.name.as_str(),
            row.take,
            kind_name(row.kind),
            u32::from(row.channels),
            u32::from(row.depth),
            row.digest.as_slice(),
            frames,
            levels.loudness,
            levels.range,
            levels.momentary,
            levels.short_term,
            levels.true_peak,
            peak,
            levels.gain,
        ],
    )
}

fn put_reply<S: Alter>(work: &mut Transaction<'_, S>, row: &ReplyRow) -> Result<(), Refusal> {
    run(
        work,
        PUT_REPLY,
        params![
            row.token.as_str(),
            row.mark.as_slice(),
            u32::from(row.status),
            row.body.as_slice(),
        ],
    )
}

/// The frames and the peak as the database keeps numbers, None where one has no room there.
fn counts(levels: &Summary) -> Option<(i64, i64)> {
    let frames = i64::try_from(levels.frames).ok()?;
    let peak = i64::try_from(levels.peak).ok()?;
    Some((frames, peak))
}

/// Runs one statement.
fn run<S: Alter>(
    work: &mut Transaction<'_, S>,
    sql: &str,
    params: &[ValueRef<'_>],
) -> Result<(), Refusal> {
    work.execute(sql, params)?;
    Ok(())
}
