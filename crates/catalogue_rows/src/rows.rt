//! The rows of the library, with the tallies of its recordings.
ghost use Rattle.keeper_store.specs.Puts.{Ascends, Ascends-prop};
ghost use Rattle.catalogue_rows.specs.KeptOrders.{kept_album_less, kept_recording_less};

use crate::kept::{KeptAlbum, KeptRecording};
use crate::members::has_place;
use album_merge::Album;
use keeper_store::{AlbumRow, NextNumbers, RecordingRow, Tables, find_row};
use kept_replies::{KeptReplies, Seen, Token};

/// The counters and rows of the library, which ascend, and the tallies of its recordings: those of
/// an album lie with the album, each other one beside its row. It keeps no segments.
#[derive(Debug, Drop)]
pub struct CatalogueRows {
    pub(crate) next_album: u32,
    pub(crate) next_recording: u32,
    pub(crate) next_take: u32,
    pub(crate) albums: Vec<KeptAlbum>,
    pub(crate) recordings: Vec<KeptRecording>,
    pub(crate) replies: KeptReplies,
    ghost albums_ascend: { Ascends kept_album_less albums.items } by { Ascends-prop kept_album_less albums.items },
    ghost recordings_ascend: { Ascends kept_recording_less recordings.items } by { Ascends-prop kept_recording_less recordings.items },
}

impl CatalogueRows {
    ghost use Rattle.std.specs.Prelude.{◌≡◌, ◌==◌, true, None, IfNone, IfSome, map, option_copied};
    ghost use Rattle.std.specs.List.{find};
    ghost use Rattle.std.specs.Str.{bytes_eq};
    ghost use Rattle.keeper_store.specs.Puts.{recording_id};
    ghost use Rattle.keeper_store.specs.declared.row_types.ReplyRow.{ReplyRow};
    ghost use Rattle.album_merge.specs.Members.{IsAlbumOf, ids_of};
    ghost use Rattle.kept_replies.specs.Seeing.{IfFresh, SeenAs};
    ghost use Rattle.kept_replies.specs.Tokens.{text_of};
    ghost use Rattle.library_model.specs.RowRules.{album_is_there, members_in};
    ghost use Rattle.catalogue_rows.specs.Holding.{Holds, album_of, numbers_of};
    ghost use Rattle.catalogue_rows.specs.Seeing.{IsFresh, is_full_in};

    /// The numbers that the next album, recording and take get.
    pub fn next_numbers(&self) -> NextNumbers
        ensures { result ≡ numbers_of self.now }
    {
        NextNumbers {
            album: self.next_album,
            recording: self.next_recording,
            take: self.next_take,
        }
    }

    /// The row of the recording of an id, found by halving.
    pub fn recording(&self, id: u32) -> Option<&RecordingRow>
        ensures { (t : Tables) → Holds self.now t
            → option_copied result ≡ find (λ (row : RecordingRow). row.id == id) t.recordings }
    {
        match find_row(self.recordings.as_slice(), id) {
            Some(kept) => Some(&kept.row),
            None => None,
        }
    }

    /// The row of the album of an id, found by halving.
    pub fn album(&self, id: u32) -> Option<&AlbumRow>
        ensures { (t : Tables) → Holds self.now t
            → option_copied result ≡ find (λ (row : AlbumRow). row.id == id) t.albums }
    {
        match find_row(self.albums.as_slice(), id) {
            Some(kept) => Some(&kept.row),
            None => None,
        }
    }

    /// The recordings of the album of an id, found by halving: their ids in ascending order, and
    /// what answers their levels.
    pub fn members(&self, id: u32) -> Option<&Album>
        ensures some { (t : Tables) → Holds self.now t → IfSome result (λ album. IsAlbumOf album.now (album_of t t.recordings id)) }
        ensures ids { (t : Tables) → Holds self.now t
            → IfSome result (λ album. ids_of album.now ≡ map recording_id (members_in id t.recordings)) }
        ensures none { (t : Tables) → Holds self.now t → IfNone result (find (λ (row : AlbumRow). row.id == id) t.albums ≡ None) }
    {
        match find_row(self.albums.as_slice(), id) {
            Some(kept) => Some(&kept.members),
            None => None,
        }
    }

    /// Whether the album that is named, if one is, has no place for another recording.
    pub fn is_full(&self, album: Option<u32>) -> bool
        ensures { (t : Tables) → Holds self.now t → album_is_there album t.albums ≡ true → result ≡ is_full_in t album }
    {
        let Some(id) = album else {
            return false;
        };
        match self.members(id) {
            Some(members) => !has_place(members),
            None => false,
        }
    }

    /// What a request with this token and this mark sees of the kept replies, found by halving.
    pub fn seen(&self, token: &Token, mark: &[u8; 16]) -> Seen<'_>
        ensures sees { (t : Tables) → Holds self.now t
            → SeenAs (find (λ (row : ReplyRow). bytes_eq row.token (text_of token.now)) t.replies) mark.now result }
        ensures fresh { IfFresh result (IsFresh self.now (text_of token.now)) }
    {
        self.replies.seen(token, mark)
    }
}
