//! The rows of the tables, and lists of them.

use lib_base::{Bytes, Kind, Seq, Summary, Text};

/// An album, with the summary of its recordings.
#[derive(Clone, Debug, Drop)]
pub struct AlbumRow {
    pub id: u32,
    pub name: Text,
    pub summary: Summary,
}

/// A recording: the album that it belongs to, the take that holds its file, the bits of a sample,
/// and the MD5 of the file.
#[derive(Clone, Debug, Drop)]
pub struct RecordingRow {
    pub id: u32,
    pub album: Option<u32>,
    pub name: Text,
    pub take: u32,
    pub kind: Kind,
    pub channels: u8,
    pub depth: u8,
    pub digest: [u8; 16],
    pub summary: Summary,
}

/// The weighted segment energies of a take, 11 bytes each, the highest first.
#[derive(Clone, Debug, Drop)]
pub struct SegmentRow {
    pub take: u32,
    pub energies: Bytes,
}

/// The reply that was given to a token, and the mark of its request: the MD5 of what it asked.
#[derive(Clone, Debug, Drop)]
pub struct ReplyRow {
    pub token: Text,
    pub mark: [u8; 16],
    pub status: u16,
    pub body: Bytes,
}

/// Rows, or changes, that contracts see as a list.
pub type Rows<T> = Seq<T>;
