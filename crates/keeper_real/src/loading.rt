//! Rows read from the database.
use crate::refusals::Refusal;
use crate::schema::{Counters, RowFault, Stored, cell};
use keeper_store::{Rows, Tables};
use sqlite::{Alter, Connection, Row};
use std::alloc::Global;

/// The rows of all tables, each table ordered by its first field.
pub(crate) fn read_tables<S: Alter>(
    alloc: Global,
    database: &mut Connection<S>,
) -> Result<Tables, Refusal> {
    let counters = read_counters(alloc, database)?;
    let albums = read_rows(alloc, database)?;
    let recordings = read_rows(alloc, database)?;
    let segments = read_rows(alloc, database)?;
    let replies = read_rows(alloc, database)?;
    Ok(Tables {
        next_album: counters.next_album,
        next_recording: counters.next_recording,
        next_take: counters.next_take,
        albums: Rows::of(albums),
        recordings: Rows::of(recordings),
        segments: Rows::of(segments),
        replies: Rows::of(replies),
    })
}

/// The counters. There is one row of them: where there is none, the first is what can't be, and
/// where there are more, the second is.
fn read_counters<S: Alter>(
    alloc: Global,
    database: &mut Connection<S>,
) -> Result<Counters, Refusal> {
    let rows: Vec<Counters> = read_rows(alloc, database)?;
    let table = Counters::table();
    match rows.as_slice() {
        [counters] => Ok(*counters),
        [] => Err(Refusal::Row { table, id: 1 }),
        _ => Err(Refusal::Row { table, id: 2 }),
    }
}

/// The rows of a table.
fn read_rows<T: Stored, S: Alter>(
    alloc: Global,
    database: &mut Connection<S>,
) -> Result<Vec<T>, Refusal> {
    let mut found = Vec::new(alloc);
    let mut rows = database.query(T::query(), &[])?;
    for place in 1..i64::MAX {
        rows.advance()?;
        match rows.get() {
            Some(row) => found.push(read_row(row, place)?)?,
            None => break,
        }
    }
    Ok(found)
}

/// A row, which stands at this place of its table.
fn read_row<T: Stored>(row: &Row, place: i64) -> Result<T, Refusal> {
    match T::of(row) {
        Ok(read) => Ok(read),
        Err(RowFault::Memory) => Err(Refusal::Memory),
        Err(RowFault::Unfit) => Err(Refusal::Row {
            table: T::table(),
            id: cell(row, 0).unwrap_or(place),
        }),
    }
}
