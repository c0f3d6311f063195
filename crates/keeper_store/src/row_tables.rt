//! Tables that are changed in place.
ghost use Rattle.std.specs.Prelude.{◌≡◌, ◌↔◌, ◌+◌, ℕ, IfOk, OnOk, length};
ghost use Rattle.keeper_store.specs.Changes.{changed, changed_all, next_numbers};
ghost use Rattle.keeper_store.specs.Keepers.{MakesChanges};
ghost use Rattle.keeper_store.specs.Puts.{album_less, recording_less, segments_less, reply_less, Ascends, AscendsWhere, AscendsWhere-prop};

use crate::drops::drop_tested;
use crate::places::{ascend, put_tested};
use crate::{
    AlbumRow, Batch, Change, NextNumbers, RecordingRow, ReplyRow, Rows, SegmentRow, Tables,
};
use lib_base::Memory;

/// Tables that are changed in place, in room that is made beforehand.
///
/// They may be any tables. Where the rows ascend, which is tested once, they go on ascending, and a
/// row finds its place by halving.
#[derive(Debug, Drop)]
pub struct RowTables {
    next_album: u32,
    next_recording: u32,
    next_take: u32,
    albums: Vec<AlbumRow>,
    recordings: Vec<RecordingRow>,
    segments: Vec<SegmentRow>,
    replies: Vec<ReplyRow>,
    ascending: bool,
    ghost albums_ascend: { AscendsWhere ascending album_less albums.items } by { AscendsWhere-prop ascending album_less albums.items },
    ghost recordings_ascend: { AscendsWhere ascending recording_less recordings.items } by { AscendsWhere-prop ascending recording_less recordings.items },
    ghost segments_ascend: { AscendsWhere ascending segments_less segments.items } by { AscendsWhere-prop ascending segments_less segments.items },
    ghost replies_ascend: { AscendsWhere ascending reply_less replies.items } by { AscendsWhere-prop ascending reply_less replies.items },
}

impl RowTables {
    ghost use Rattle.keeper_store.specs.Held.{held_tables, HasRoom, IsInOrder, RowsAscend};

    /// These tables, with no memory taken.
    pub fn of(tables: Tables) -> RowTables
        ensures held { held_tables result ≡ tables }
        ensures order { RowsAscend tables → IsInOrder result }
    {
        let albums = tables.albums.into_vec();
        let recordings = tables.recordings.into_vec();
        let segments = tables.segments.into_vec();
        let replies = tables.replies.into_vec();
        let ascending = ascend(albums.as_slice())
            && ascend(recordings.as_slice())
            && ascend(segments.as_slice())
            && ascend(replies.as_slice());
        RowTables {
            next_album: tables.next_album,
            next_recording: tables.next_recording,
            next_take: tables.next_take,
            albums,
            recordings,
            segments,
            replies,
            ascending,
        }
    }

    /// A copy of the tables.
    pub(crate) fn copy(&self) -> Result<Tables, Memory>
        ensures { IfOk result (λ tables. tables ≡ held_tables self.now) }
    {
        let albums = self.albums.clone()?;
        let recordings = self.recordings.clone()?;
        let segments = self.segments.clone()?;
        let replies = self.replies.clone()?;
        Ok(Tables {
            next_album: self.next_album,
            next_recording: self.next_recording,
            next_take: self.next_take,
            albums: Rows::of(albums),
            recordings: Rows::of(recordings),
            segments: Rows::of(segments),
            replies: Rows::of(replies),
        })
    }

    /// Makes all the changes of the batch, or none. All the memory is taken first: a copy of the
    /// batch, and room for a row more for each change.
    pub(crate) fn make(&mut self, batch: &Batch) -> Result<(), Memory>
        ensures { MakesChanges batch.now.changes result (held_tables self.old) (held_tables self.new) }
    {
        let changes = batch.changes.clone()?.into_vec();
        self.reserve(changes.len())?;
        self.make_all(changes);
        Ok(())
    }

    /// The numbers that come next.
    pub fn next_numbers(&self) -> NextNumbers
        ensures { result ≡ next_numbers (held_tables self.now) }
    {
        NextNumbers {
            album: self.next_album,
            recording: self.next_recording,
            take: self.next_take,
        }
    }

    /// The rows of the recordings.
    pub fn recordings(&self) -> &[RecordingRow]
        ensures rows { result.now ≡ (held_tables self.now).recordings }
        ensures ascend { IsInOrder self.now → Ascends recording_less result.now }
    {
        self.recordings.as_slice()
    }

    /// Makes room for so many rows more in each table.
    pub fn reserve(&mut self, more: usize) -> Result<(), Memory>
        ensures kept { held_tables self.new ≡ held_tables self.old }
        ensures order { IsInOrder self.old → IsInOrder self.new }
        ensures room { OnOk result (HasRoom self.new more) }
    {
        self.albums.reserve(more)?;
        self.recordings.reserve(more)?;
        self.segments.reserve(more)?;
        self.replies.reserve(more)?;
        Ok(())
    }

    /// Makes changes, of which the first is made first, in the room that there is.
    pub fn make_all(&mut self, changes: Vec<Change>)
        requires { HasRoom self.old (length changes.items) }
        ensures made { held_tables self.new ≡ changed_all changes.items (held_tables self.old) }
        ensures order { IsInOrder self.old → IsInOrder self.new }
    {
        for change in changes {
            self.make_one(change);
        }
    }

    /// Makes one change in the room that there is.
    fn make_one(&mut self, change: Change)
        requires { HasRoom self.old 1 }
        ensures made { held_tables self.new ≡ changed change (held_tables self.old) }
        ensures order { IsInOrder self.old → IsInOrder self.new }
        ensures room { (more : ℕ) → HasRoom self.old (more + 1) → HasRoom self.new more }
    {
        match change {
            Change::Counters {
                next_album,
                next_recording,
                next_take,
            } => {
                self.next_album = next_album;
                self.next_recording = next_recording;
                self.next_take = next_take;
            }
            Change::PutAlbum(row) => put_tested(&mut self.albums, row, self.ascending),
            Change::PutRecording(row) => {
                put_tested(&mut self.recordings, row, self.ascending);
            }
            Change::PutSegments(row) => put_tested(&mut self.segments, row, self.ascending),
            Change::PutReply(row) => put_tested(&mut self.replies, row, self.ascending),
            Change::DropAlbum { id } => drop_tested(&mut self.albums, id, self.ascending),
            Change::DropRecording { id } => drop_tested(&mut self.recordings, id, self.ascending),
            Change::DropSegments { take } => drop_tested(&mut self.segments, take, self.ascending),
        }
    }
}
