//! Tallies put into albums, and taken out, by the albums' ids.
ghost use Rattle.std.specs.Prelude.{◌≡◌, ◌≤◌, ℕ, List, Contains, None, Some, Option, IfNone, IfSome, is_some, map, true};
ghost use Rattle.lib_base.specs.declared.files.Measured.{Measured};
ghost use Rattle.keeper_store.specs.Puts.{Ascends};
ghost use Rattle.sound_model.specs.Albums.{IsAlbumSummary};
ghost use Rattle.album_merge.specs.Members.{measured_of, with_recording, without_recording};
ghost use Rattle.album_merge.specs.Tallies.{StandsForMeasured};
ghost use Rattle.library_model.specs.RowRules.{has_album};
ghost use Rattle.catalogue_rows.specs.Holding.{HasOwn, album_row};
ghost use Rattle.catalogue_rows.specs.KeptOrders.{kept_album_less};
ghost use Rattle.catalogue_rows.specs.Places.{AreKept, AreMembersOf, HavePlaces, IsFewIn, IsTallyOf, with_over, without_one};
ghost use Rattle.catalogue_rows.specs.Room.{and_one, one_in};

use crate::kept::KeptAlbum;
use crate::members;
use album_merge::TrackTally;
use keeper_store::find_place;
use lib_base::{Steps, Summary};
use std::sync::ledger::Ledger;

/// Takes the tally of a recording out of the album of an id, where the album is there and has it.
pub(crate) fn take_from(albums: &mut Vec<KeptAlbum>, album: u32, id: u32) -> Option<TrackTally>
    requires { Ascends kept_album_less albums.old.items }
    ensures kept { AreKept albums.old albums.new }
    ensures ascend { Ascends kept_album_less albums.new.items }
    ensures members { (of : ℕ → List (ℕ × Measured)) → AreMembersOf of albums.old.items
        → AreMembersOf (without_one album id of) albums.new.items }
    ensures missing { IfNone result (albums.new.items ≡ albums.old.items) }
    ensures places { (more : ℕ → ℕ) → HavePlaces more albums.old.items → HavePlaces more albums.new.items }
    ensures place { IfSome result (λ _. (more : ℕ → ℕ) → HavePlaces more albums.old.items → HavePlaces (and_one (Some album) more) albums.new.items) }
    ensures few { IfSome result (λ _. (of : ℕ → List (ℕ × Measured)) → AreMembersOf of albums.old.items
        → IsFewIn (Some album) id of) }
    ensures tally { IfSome result (λ tally. (of : ℕ → List (ℕ × Measured)) (measured : Measured) → AreMembersOf of albums.old.items
        → Contains (of album) (id, measured) → StandsForMeasured tally measured) }
    ensures some { (of : ℕ → List (ℕ × Measured)) (measured : Measured) → AreMembersOf of albums.old.items
        → has_album album (map album_row albums.old.items) ≡ true → Contains (of album) (id, measured) → is_some result ≡ true }
{
    let Some(place) = find_place(albums.as_slice(), album) else {
        return None;
    };
    albums[place].members.remove(id)
}

/// Puts the tally of a recording into the album of an id, over that of its id, where the album is
/// there and has a place.
pub(crate) fn put_into(albums: &mut Vec<KeptAlbum>, album: u32, id: u32, tally: TrackTally)
    requires ascend { Ascends kept_album_less albums.old.items }
    requires place { HavePlaces (one_in (Some album)) albums.old.items }
    ensures kept { AreKept albums.old albums.new }
    ensures ascend { Ascends kept_album_less albums.new.items }
    ensures members { (of : ℕ → List (ℕ × Measured)) (measured : Measured) → AreMembersOf of albums.old.items
        → StandsForMeasured tally measured → IsFewIn (Some album) id of → AreMembersOf (with_over (Some album) id measured of) albums.new.items }
    ensures places { (more : ℕ → ℕ) → HavePlaces (and_one (Some album) more) albums.old.items → HavePlaces more albums.new.items }
{
    if let Some(place) = find_place(albums.as_slice(), album) {
        members::put_over(&mut albums[place].members, id, tally);
    }
}

/// Puts the tally of a recording, where there is one, into the album that is named, or gives it back
/// where none is.
pub(crate) fn place_in(
    albums: &mut Vec<KeptAlbum>,
    album: Option<u32>,
    id: u32,
    tally: Option<TrackTally>,
) -> Option<TrackTally>
    requires ascend { Ascends kept_album_less albums.old.items }
    requires place { HavePlaces (one_in album) albums.old.items }
    ensures kept { AreKept albums.old albums.new }
    ensures ascend { Ascends kept_album_less albums.new.items }
    ensures own { (measured : Measured) → IsTallyOf tally measured → HasOwn album result measured }
    ensures members { (of : ℕ → List (ℕ × Measured)) (measured : Measured) → AreMembersOf of albums.old.items
        → IsTallyOf tally measured → IsFewIn album id of → AreMembersOf (with_over album id measured of) albums.new.items }
    ensures places { (more : ℕ → ℕ) → HavePlaces (and_one album more) albums.old.items → HavePlaces more albums.new.items }
{
    let Some(tally) = tally else {
        return None;
    };
    match album {
        Some(album) => {
            put_into(albums, album, id, tally);
            None
        }
        None => Some(tally),
    }
}

/// The levels that the album of an id would have with a recording, over the one of its id, and the
/// recording's tally back. None where the album is not there, or is full without the recording.
pub(crate) fn try_with<L: Ledger>(
    albums: &mut Vec<KeptAlbum>,
    album: u32,
    id: u32,
    tally: TrackTally,
    steps: &mut Steps<L>,
) -> (Option<Summary>, TrackTally)
    requires ascend { Ascends kept_album_less albums.old.items }
    requires place { HavePlaces (one_in (Some album)) albums.old.items }
    ensures kept { AreKept albums.old albums.new }
    ensures ascend { Ascends kept_album_less albums.new.items }
    ensures members { (of : ℕ → List (ℕ × Measured)) → AreMembersOf of albums.old.items → AreMembersOf of albums.new.items }
    ensures places { (more : ℕ → ℕ) → HavePlaces more albums.old.items → HavePlaces more albums.new.items }
    ensures tally { (measured : Measured) → StandsForMeasured tally measured → StandsForMeasured result.1 measured }
    ensures summary { (of : ℕ → List (ℕ × Measured)) (measured : Measured) → AreMembersOf of albums.old.items
        → StandsForMeasured tally measured
        → IfSome result.0 (IsAlbumSummary (measured_of (with_recording id measured (without_recording id (of album))))) }
    ensures some { (of : ℕ → List (ℕ × Measured)) → AreMembersOf of albums.old.items
        → has_album album (map album_row albums.old.items) ≡ true → IsFewIn (Some album) id of → is_some result.0 ≡ true }
    ensures counted { steps.old ≤ steps.new }
{
    let Some(place) = find_place(albums.as_slice(), album) else {
        return (None, tally);
    };
    members::try_with(&mut albums[place].members, id, tally, steps)
}

/// The levels that the album of an id would have without a recording, which it has or not.
pub(crate) fn try_without<L: Ledger>(
    albums: &mut Vec<KeptAlbum>,
    album: u32,
    id: u32,
    steps: &mut Steps<L>,
) -> Option<Summary>
    requires { Ascends kept_album_less albums.old.items }
    ensures kept { AreKept albums.old albums.new }
    ensures ascend { Ascends kept_album_less albums.new.items }
    ensures members { (of : ℕ → List (ℕ × Measured)) → AreMembersOf of albums.old.items → AreMembersOf of albums.new.items }
    ensures places { (more : ℕ → ℕ) → HavePlaces more albums.old.items → HavePlaces more albums.new.items }
    ensures summary { (of : ℕ → List (ℕ × Measured)) → AreMembersOf of albums.old.items
        → IfSome result (IsAlbumSummary (measured_of (without_recording id (of album)))) }
    ensures some { has_album album (map album_row albums.old.items) ≡ true → is_some result ≡ true }
    ensures counted { steps.old ≤ steps.new }
{
    let Some(place) = find_place(albums.as_slice(), album) else {
        return None;
    };
    Some(members::try_without(&mut albums[place].members, id, steps))
}
