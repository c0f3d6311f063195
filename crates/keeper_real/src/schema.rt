//! The tables of the database, and the columns of each row.
ghost use Rattle.std.specs.Prelude.{◌≤◌};

use keeper_store::{AlbumRow, RecordingRow, ReplyRow, SegmentRow};
use lib_base::{Bytes, Kind, Summary, Text};
use sqlite::types::FromSql;
use sqlite::{Error, ErrorCode, Row};

/// The tables, with the counters at 1. An absent value is NULL. A token stands once.
pub(crate) const TABLES: &str = "
CREATE TABLE counters (id INTEGER PRIMARY KEY, next_album INTEGER NOT NULL,
  next_recording INTEGER NOT NULL, next_take INTEGER NOT NULL) STRICT;
CREATE TABLE albums (id INTEGER PRIMARY KEY, name TEXT NOT NULL, frames INTEGER NOT NULL,
  loudness INTEGER, loudness_range INTEGER, momentary INTEGER, short_term INTEGER,
  true_peak INTEGER, peak INTEGER NOT NULL, gain INTEGER) STRICT;
CREATE TABLE recordings (id INTEGER PRIMARY KEY, album INTEGER, name TEXT NOT NULL,
  take INTEGER NOT NULL, kind TEXT NOT NULL, channels INTEGER NOT NULL, depth INTEGER NOT NULL,
  digest BLOB NOT NULL, frames INTEGER NOT NULL, loudness INTEGER, loudness_range INTEGER,
  momentary INTEGER, short_term INTEGER, true_peak INTEGER, peak INTEGER NOT NULL,
  gain INTEGER) STRICT;
CREATE TABLE segments (take INTEGER PRIMARY KEY, energies BLOB NOT NULL) STRICT;
CREATE TABLE replies (token TEXT PRIMARY KEY NOT NULL, mark BLOB NOT NULL,
  status INTEGER NOT NULL, body BLOB NOT NULL) STRICT;
INSERT INTO counters VALUES (1, 1, 1, 1);";

/// Why a row of the database is no row of the library.
#[derive(Clone, Copy)]
pub(crate) enum RowFault {
    /// A value that it can't hold.
    Unfit,
    /// Want of memory.
    Memory,
}

/// A row of the library that stands in a table of the database.
pub(crate) trait Stored: Sized + Drop {
    /// The table's name.
    fn table() -> &'static str;

    /// Its rows, ordered by their first column.
    fn query() -> &'static str;

    /// The row with these columns.
    fn of(row: &Row) -> Result<Self, RowFault>;
}

/// The counters, which stand in one row.
#[derive(Clone, Copy)]
pub(crate) struct Counters {
    pub(crate) next_album: u32,
    pub(crate) next_recording: u32,
    pub(crate) next_take: u32,
}

impl Stored for Counters {
    fn table() -> &'static str {
        "counters"
    }

    fn query() -> &'static str {
        "SELECT id, next_album, next_recording, next_take FROM counters ORDER BY id"
    }

    fn of(row: &Row) -> Result<Counters, RowFault> {
        Ok(Counters {
            next_album: cell(row, 1)?,
            next_recording: cell(row, 2)?,
            next_take: cell(row, 3)?,
        })
    }
}

impl Stored for AlbumRow {
    fn table() -> &'static str {
        "albums"
    }

    fn query() -> &'static str {
        "SELECT id, name, frames, loudness, loudness_range, momentary, short_term, true_peak, \
         peak, gain FROM albums ORDER BY id"
    }

    fn of(row: &Row) -> Result<AlbumRow, RowFault> {
        Ok(AlbumRow {
            id: cell(row, 0)?,
            name: text(row, 1)?,
            summary: summary(row, 2)?,
        })
    }
}

impl Stored for RecordingRow {
    fn table() -> &'static str {
        "recordings"
    }

    fn query() -> &'static str {
        "SELECT id, album, name, take, kind, channels, depth, digest, frames, loudness, \
         loudness_range, momentary, short_term, true_peak, peak, gain FROM recordings ORDER BY id"
    }

    fn of(row: &Row) -> Result<RecordingRow, RowFault> {
        Ok(RecordingRow {
            id: cell(row, 0)?,
            album: cell(row, 1)?,
            name: text(row, 2)?,
            take: cell(row, 3)?,
            kind: kind(row, 4)?,
            channels: byte(row, 5)?,
            depth: byte(row, 6)?,
            digest: digest(row, 7)?,
            summary: summary(row, 8)?,
        })
    }
}

impl Stored for SegmentRow {
    fn table() -> &'static str {
        "segments"
    }

    fn query() -> &'static str {
        "SELECT take, energies FROM segments ORDER BY take"
    }

    fn of(row: &Row) -> Result<SegmentRow, RowFault> {
        Ok(SegmentRow {
            take: cell(row, 0)?,
            energies: bytes(row, 1)?,
        })
    }
}

impl Stored for ReplyRow {
    fn table() -> &'static str {
        "replies"
    }

    fn query() -> &'static str {
        "SELECT token, mark, status, body FROM replies ORDER BY token"
    }

    fn of(row: &Row) -> Result<ReplyRow, RowFault> {
        Ok(ReplyRow {
            token: text(row, 0)?,
            mark: digest(row, 1)?,
            status: status(row, 2)?,
            body: bytes(row, 3)?,
        })
    }
}

/// The value in a column.
pub(crate) fn cell<T: FromSql>(row: &Row, at: usize) -> Result<T, RowFault> {
    match row.get(at) {
        Ok(value) => Ok(value),
        Err(Error::SqliteFailure(ErrorCode::OutOfMemory)) => Err(RowFault::Memory),
        Err(_) => Err(RowFault::Unfit),
    }
}

fn text(row: &Row, at: usize) -> Result<Text, RowFault> {
    Ok(Text::of(cell(row, at)?))
}

fn bytes(row: &Row, at: usize) -> Result<Bytes, RowFault> {
    Ok(Bytes::of(cell(row, at)?))
}

fn byte(row: &Row, at: usize) -> Result<u8, RowFault> {
    let number: u32 = cell(row, at)?;
    u8::try_from(number).map_err(|_| RowFault::Unfit)
}

fn status(row: &Row, at: usize) -> Result<u16, RowFault> {
    let number: u32 = cell(row, at)?;
    u16::try_from(number).map_err(|_| RowFault::Unfit)
}

/// The 16 bytes of a digest or a mark.
fn digest(row: &Row, at: usize) -> Result<[u8; 16], RowFault> {
    let bytes: Vec<u8> = cell(row, at)?;
    match bytes.as_slice().as_chunks::<16>() {
        ([digest], []) => Ok(*digest),
        _ => Err(RowFault::Unfit),
    }
}

fn kind(row: &Row, at: usize) -> Result<Kind, RowFault> {
    let name: String = cell(row, at)?;
    match name.as_str() {
        "wave" => Ok(Kind::Wave),
        "flac" => Ok(Kind::Flac),
        _ => Err(RowFault::Unfit),
    }
}

/// How a kind stands in the database.
pub(crate) fn kind_name(kind: Kind) -> &'static str {
    match kind {
        Kind::Wave => "wave",
        Kind::Flac => "flac",
    }
}

/// The summary in eight columns from this one on.
fn summary(row: &Row, from: usize) -> Result<Summary, RowFault>
    requires { from ≤ 8 }
{
    Ok(Summary {
        frames: cell(row, from)?,
        loudness: cell(row, from + 1)?,
        range: cell(row, from + 2)?,
        momentary: cell(row, from + 3)?,
        short_term: cell(row, from + 4)?,
        true_peak: cell(row, from + 5)?,
        peak: cell(row, from + 6)?,
        gain: cell(row, from + 7)?,
    })
}
