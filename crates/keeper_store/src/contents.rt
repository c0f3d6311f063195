//! The tables, and the changes that a batch makes to them.
ghost use Rattle.std.specs.Prelude.{◌≡◌};

use crate::{AlbumRow, RecordingRow, ReplyRow, Rows, SegmentRow};
use std::alloc::{AllocError, Global};

/// The rows of the library, and the counters that give the next album, recording and take.
#[derive(Debug, Drop)]
pub struct Tables {
    pub next_album: u32,
    pub next_recording: u32,
    pub next_take: u32,
    pub albums: Rows<AlbumRow>,
    pub recordings: Rows<RecordingRow>,
    pub segments: Rows<SegmentRow>,
    pub replies: Rows<ReplyRow>,
}

impl Tables {
    ghost use Rattle.keeper_store.specs.Changes.{empty_tables};

    /// No row, and each counter 1. It takes no memory.
    pub fn empty(alloc: Global) -> Tables
        ensures { result ≡ empty_tables }
    {
        Tables {
            next_album: 1,
            next_recording: 1,
            next_take: 1,
            albums: Rows::of(Vec::new(alloc)),
            recordings: Rows::of(Vec::new(alloc)),
            segments: Rows::of(Vec::new(alloc)),
            replies: Rows::of(Vec::new(alloc)),
        }
    }
}

impl Clone for Tables {
    ghost is_clone = { λ tables copy. copy ≡ tables };

    fn clone(&self) -> Result<Tables, AllocError> {
        let albums = self.albums.clone()?;
        let recordings = self.recordings.clone()?;
        let segments = self.segments.clone()?;
        let replies = self.replies.clone()?;
        Ok(Tables {
            next_album: self.next_album,
            next_recording: self.next_recording,
            next_take: self.next_take,
            albums,
            recordings,
            segments,
            replies,
        })
    }
}

/// The numbers that the next album, recording and take get.
#[derive(Clone, Copy, Debug, PartialEq, Eq)]
pub struct NextNumbers {
    pub album: u32,
    pub recording: u32,
    pub take: u32,
}

/// One change of the tables. A put replaces the row of its id, take or token, and a drop of a row
/// that is not there changes nothing.
#[derive(Debug, Drop)]
pub enum Change {
    Counters {
        next_album: u32,
        next_recording: u32,
        next_take: u32,
    },
    PutAlbum(AlbumRow),
    PutRecording(RecordingRow),
    PutSegments(SegmentRow),
    PutReply(ReplyRow),
    DropAlbum {
        id: u32,
    },
    DropRecording {
        id: u32,
    },
    DropSegments {
        take: u32,
    },
}

impl Clone for Change {
    ghost is_clone = { λ change copy. copy ≡ change };

    fn clone(&self) -> Result<Change, AllocError> {
        match self {
            Change::Counters {
                next_album,
                next_recording,
                next_take,
            } => Ok(Change::Counters {
                next_album: *next_album,
                next_recording: *next_recording,
                next_take: *next_take,
            }),
            Change::PutAlbum(row) => Ok(Change::PutAlbum(row.clone()?)),
            Change::PutRecording(row) => Ok(Change::PutRecording(row.clone()?)),
            Change::PutSegments(row) => Ok(Change::PutSegments(row.clone()?)),
            Change::PutReply(row) => Ok(Change::PutReply(row.clone()?)),
            Change::DropAlbum { id } => Ok(Change::DropAlbum { id: *id }),
            Change::DropRecording { id } => Ok(Change::DropRecording { id: *id }),
            Change::DropSegments { take } => Ok(Change::DropSegments { take: *take }),
        }
    }
}

/// Changes, of which the first is made first.
pub type Changes = Rows<Change>;

/// Changes that are made together or not at all.
#[derive(Clone, Debug, Drop)]
pub struct Batch {
    pub changes: Changes,
}
