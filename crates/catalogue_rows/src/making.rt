//! Changes made in place, in the room that there is.
ghost use Rattle.std.specs.Prelude.{◌+◌, ◌≡◌, ◌≤◌, [], ◌∷◌, ℕ, IfSome, List};
ghost use Rattle.keeper_store.specs.Changes.{changed, changed_all};
ghost use Rattle.keeper_store.specs.declared.contents.Change.{Change as Made};
ghost use Rattle.keeper_store.specs.declared.contents.Change.TheVariants as change;
ghost use Rattle.keeper_store.specs.declared.contents.Tables.{Tables};
ghost use Rattle.catalogue_rows.specs.Holding.{Holds};
ghost use Rattle.catalogue_rows.specs.Making.{FitsAlbum, FitsAll, FitsChange, FitsRecording, left_of};
ghost use Rattle.catalogue_rows.specs.Room.{HasPlaceIn, HasPlaces, HasRoom, HasRoomFor, and_one};

use crate::kept::{KeptAlbum, KeptRecording};
use crate::tallies::place_in;
use crate::{CatalogueRows, Fresh};
use album_merge::{Album, TrackTally};
use keeper_store::{AlbumRow, Change, RecordingRow, ReplyRow, drop_row, find_place, put_row};

/// None of these takes memory. Segments are not kept, so a change of them changes nothing here.
impl CatalogueRows {
    /// Makes changes, of which the first is made first, with what is new in them.
    pub fn make_all(&mut self, changes: Vec<Change>, fresh: Fresh)
        requires { HasRoomFor self.old fresh changes.items }
        ensures { (t : Tables) → Holds self.old t → FitsAll changes.items fresh t → Holds self.new (changed_all changes.items t) }
    {
        let mut fresh = fresh;
        for change in changes {
            fresh = self.make_one(change, fresh);
        }
    }

    /// Makes one change, and gives back what is new and still left.
    fn make_one(&mut self, change: Change, fresh: Fresh) -> Fresh
        requires { HasRoomFor self.old fresh (change ∷ []) }
        ensures held { (t : Tables) → Holds self.old t → FitsChange change fresh t → Holds self.new (changed change t) }
        ensures left { result ≡ left_of change fresh }
        ensures room { (changes : List Made) → HasRoomFor self.old fresh (change ∷ changes) → HasRoomFor self.new result changes }
    {
        match change {
            Change::PutAlbum(row) => {
                let Fresh { tally, album } = fresh;
                self.put_album(row, album);
                Fresh { tally, album: None }
            }
            Change::PutRecording(row) => {
                let Fresh { tally, album } = fresh;
                self.put_recording(row, tally);
                Fresh { tally: None, album }
            }
            Change::Counters {
                next_album,
                next_recording,
                next_take,
            } => {
                self.set_numbers(next_album, next_recording, next_take);
                fresh
            }
            Change::PutReply(row) => {
                self.put_reply(row);
                fresh
            }
            Change::DropAlbum { id } => {
                self.drop_album(id);
                fresh
            }
            Change::DropRecording { id } => {
                self.drop_recording(id);
                fresh
            }
            Change::PutSegments(_) => fresh,
            Change::DropSegments { .. } => fresh,
        }
    }

    /// Sets the counters.
    fn set_numbers(&mut self, album: u32, recording: u32, take: u32)
        ensures held { (t : Tables) → Holds self.old t → Holds self.new (changed (change.Counters album recording take) t) }
        ensures room { (more : ℕ) → HasRoom self.old more → HasRoom self.new more }
        ensures places { (more : ℕ → ℕ) → HasPlaces self.old more → HasPlaces self.new more }
    {
        self.next_album = album;
        self.next_recording = recording;
        self.next_take = take;
    }

    /// Puts a kept reply, over one under its token.
    fn put_reply(&mut self, row: ReplyRow)
        requires { HasRoom self.old 1 }
        ensures held { (t : Tables) → Holds self.old t → Holds self.new (changed (change.PutReply row) t) }
        ensures room { (more : ℕ) → HasRoom self.old (more + 1) → HasRoom self.new more }
        ensures places { (more : ℕ → ℕ) → HasPlaces self.old more → HasPlaces self.new more }
    {
        self.replies.put(row);
    }

    /// Takes out an album. Where there is none of the id, nothing changes.
    fn drop_album(&mut self, id: u32)
        ensures held { (t : Tables) → Holds self.old t → Holds self.new (changed (change.DropAlbum id) t) }
        ensures room { (more : ℕ) → HasRoom self.old more → HasRoom self.new more }
        ensures places { (more : ℕ → ℕ) → HasPlaces self.old more → HasPlaces self.new more }
    {
        drop_row(&mut self.albums, id);
    }

    /// Puts an album's row over that of its id, or with a new album of no recording.
    fn put_album(&mut self, row: AlbumRow, album: Option<Album>)
        requires { HasRoom self.old 1 }
        ensures held { (t : Tables) → Holds self.old t → FitsAlbum row album t → Holds self.new (changed (change.PutAlbum row) t) }
        ensures room { (more : ℕ) → HasRoom self.old (more + 1) → HasRoom self.new more }
        ensures places { (more : ℕ → ℕ) → HasPlaces self.old more → IfSome album (λ a. more row.id ≤ a.spare) → HasPlaces self.new more }
    {
        match find_place(self.albums.as_slice(), row.id) {
            Some(place) => self.albums[place].row = row,
            None => if let Some(members) = album {
                put_row(&mut self.albums, KeptAlbum { row, members });
            },
        }
    }

    /// Puts a recording, with a new tally or the one that it has, where its row says.
    fn put_recording(&mut self, row: RecordingRow, tally: Option<TrackTally>)
        requires room { HasRoom self.old 1 }
        requires place { HasPlaceIn self.old row.album }
        ensures held { (t : Tables) → Holds self.old t → FitsRecording row tally t → Holds self.new (changed (change.PutRecording row) t) }
        ensures room { (more : ℕ) → HasRoom self.old (more + 1) → HasRoom self.new more }
        ensures places { (more : ℕ → ℕ) → HasPlaces self.old (and_one row.album more) → HasPlaces self.new more }
    {
        let own = self.lift(row.id);
        let beside = place_in(&mut self.albums, row.album, row.id, tally.or(own));
        put_row(&mut self.recordings, KeptRecording { row, tally: beside });
    }

    /// Takes out a recording, and its tally. Where there is none of the id, nothing changes.
    fn drop_recording(&mut self, id: u32)
        ensures held { (t : Tables) → Holds self.old t → Holds self.new (changed (change.DropRecording id) t) }
        ensures room { (more : ℕ) → HasRoom self.old more → HasRoom self.new more }
        ensures places { (more : ℕ → ℕ) → HasPlaces self.old more → HasPlaces self.new more }
    {
        self.lift(id);
        drop_row(&mut self.recordings, id);
    }
}
