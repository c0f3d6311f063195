//! Tallies of recordings taken from where they are, and brought back.
ghost use Rattle.std.specs.Prelude.{◌≡◌, ◌==◌, ℕ, Some, IfNone, IfSome, is_some, true};
ghost use Rattle.std.specs.List.{find};
ghost use Rattle.keeper_store.specs.declared.contents.Tables.{Tables};
ghost use Rattle.keeper_store.specs.declared.row_types.RecordingRow.{RecordingRow};
ghost use Rattle.album_merge.specs.Tallies.{StandsForMeasured};
ghost use Rattle.library_model.specs.RowRules.{album_is_there, measured_in};
ghost use Rattle.catalogue_rows.specs.Holding.{Holds, album_of, numbers_of};
ghost use Rattle.catalogue_rows.specs.Places.{HasHome, HoldsBut, IsFewIn};
ghost use Rattle.catalogue_rows.specs.Room.{HasPlaces, HasRoom, KeepsRoom};

use crate::CatalogueRows;
use crate::tallies::{place_in, take_from};
use album_merge::TrackTally;
use keeper_store::find_place;

impl CatalogueRows {
    /// Takes the tally of a recording out of its album, or from beside its row.
    pub(crate) fn lift(&mut self, id: u32) -> Option<TrackTally>
        ensures but { (t : Tables) → Holds self.old t → HoldsBut self.new id t }
        ensures missing { IfNone result ((t : Tables) → Holds self.old t → Holds self.new t) }
        ensures numbers { numbers_of self.new ≡ numbers_of self.old }
        ensures room { KeepsRoom self.old self.new }
        ensures home { IfSome result (λ _. (more : ℕ → ℕ) → HasPlaces self.old more → HasHome self.new id more) }
        ensures there { IfSome result (λ _. (t : Tables) → Holds self.old t
            → is_some (find (λ (r : RecordingRow). r.id == id) t.recordings) ≡ true) }
        ensures tally { IfSome result (λ tally. (t : Tables) (row : RecordingRow) → Holds self.old t
            → find (λ (r : RecordingRow). r.id == id) t.recordings ≡ Some row → StandsForMeasured tally (measured_in t row)) }
        ensures few { IfSome result (λ _. (t : Tables) (row : RecordingRow) → Holds self.old t
            → find (λ (r : RecordingRow). r.id == id) t.recordings ≡ Some row → IsFewIn row.album id (album_of t t.recordings)) }
        ensures some { (t : Tables) (row : RecordingRow) → Holds self.old t
            → find (λ (r : RecordingRow). r.id == id) t.recordings ≡ Some row → album_is_there row.album t.albums ≡ true
            → is_some result ≡ true }
    {
        let Some(place) = find_place(self.recordings.as_slice(), id) else {
            return None;
        };
        match self.recordings[place].row.album {
            Some(album) => take_from(&mut self.albums, album, id),
            None => self.recordings[place].tally.take(),
        }
    }

    /// Brings the tally of a recording back to where its row says.
    pub(crate) fn bring_back(&mut self, id: u32, tally: TrackTally)
        requires { HasHome self.old id (λ _. 0) }
        ensures held { (t : Tables) (row : RecordingRow) → HoldsBut self.old id t
            → find (λ (r : RecordingRow). r.id == id) t.recordings ≡ Some row → StandsForMeasured tally (measured_in t row)
            → IsFewIn row.album id (album_of t t.recordings) → Holds self.new t }
        ensures numbers { numbers_of self.new ≡ numbers_of self.old }
        ensures room { (more : ℕ) → HasRoom self.old more → HasRoom self.new more }
        ensures places { (more : ℕ → ℕ) → HasHome self.old id more → HasPlaces self.new more }
    {
        let Some(place) = find_place(self.recordings.as_slice(), id) else {
            return;
        };
        let album = self.recordings[place].row.album;
        self.recordings[place].tally = place_in(&mut self.albums, album, id, Some(tally));
    }
}
