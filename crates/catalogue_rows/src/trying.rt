//! What albums would sum to after a change: the change is made on the album, summed, and undone.
ghost use Rattle.std.specs.Prelude.{◌≡◌, ◌≤◌, IfSome, is_some, true};
ghost use Rattle.lib_base.specs.declared.files.Measured.{Measured};
ghost use Rattle.keeper_store.specs.declared.contents.Tables.{Tables};
ghost use Rattle.album_merge.specs.Tallies.{StandsForMeasured};
ghost use Rattle.library_model.specs.RowRules.{has_album};
ghost use Rattle.catalogue_rows.specs.Holding.{Holds, numbers_of};
ghost use Rattle.catalogue_rows.specs.Room.{HasPlaceIn, KeepsRoom};
ghost use Rattle.catalogue_rows.specs.Trying.{HasPlaceFor, IsSumIn, Joins, LeavesAlbum, MovesInto};

use crate::CatalogueRows;
use crate::tallies::{try_with, try_without};
use album_merge::TrackTally;
use lib_base::{Steps, Summary};
use std::sync::ledger::Ledger;

/// None of these takes memory, and the rows hold the same tables before and after. An album that is
/// not there has no levels.
impl CatalogueRows {
    /// The levels that an album would have with a new take of a recording, which is in it already or
    /// in none, and the take's tally back. None where the album is full without it.
    pub fn summary_with<L: Ledger>(
        &mut self,
        album: u32,
        id: u32,
        tally: TrackTally,
        steps: &mut Steps<L>,
    ) -> (Option<Summary>, TrackTally)
        requires { HasPlaceIn self.old (Some album) }
        ensures held { (t : Tables) → Holds self.old t → Holds self.new t }
        ensures numbers { numbers_of self.new ≡ numbers_of self.old }
        ensures kept { KeepsRoom self.old self.new }
        ensures tally { (measured : Measured) → StandsForMeasured tally measured → StandsForMeasured result.1 measured }
        ensures summary { (t next : Tables) → Holds self.old t → Joins album id tally t next → IfSome result.0 (IsSumIn next album) }
        ensures some { (t next : Tables) → Holds self.old t → Joins album id tally t next → HasPlaceFor album t next
            → is_some result.0 ≡ true }
        ensures counted { steps.old ≤ steps.new }
    {
        try_with(&mut self.albums, album, id, tally, steps)
    }

    /// The levels that an album would have with a recording that is in another, in none, or in it
    /// already. None where the recording is not there, or the album is full without it.
    pub fn summary_with_moved<L: Ledger>(
        &mut self,
        album: u32,
        id: u32,
        steps: &mut Steps<L>,
    ) -> Option<Summary>
        requires { HasPlaceIn self.old (Some album) }
        ensures held { (t : Tables) → Holds self.old t → Holds self.new t }
        ensures numbers { numbers_of self.new ≡ numbers_of self.old }
        ensures kept { KeepsRoom self.old self.new }
        ensures summary { (t next : Tables) → Holds self.old t → MovesInto album id t next → IfSome result (IsSumIn next album) }
        ensures some { (t next : Tables) → Holds self.old t → MovesInto album id t next → HasPlaceFor album t next
            → is_some result ≡ true }
        ensures counted { steps.old ≤ steps.new }
    {
        let Some(tally) = self.lift(id) else {
            return None;
        };
        let (summary, tally) = try_with(&mut self.albums, album, id, tally, steps);
        self.bring_back(id, tally);
        summary
    }

    /// The levels that an album would have without a recording, which is in it or not.
    pub fn summary_without<L: Ledger>(
        &mut self,
        album: u32,
        id: u32,
        steps: &mut Steps<L>,
    ) -> Option<Summary>
        ensures held { (t : Tables) → Holds self.old t → Holds self.new t }
        ensures numbers { numbers_of self.new ≡ numbers_of self.old }
        ensures kept { KeepsRoom self.old self.new }
        ensures summary { (t next : Tables) → Holds self.old t → LeavesAlbum album id t next → IfSome result (IsSumIn next album) }
        ensures some { (t : Tables) → Holds self.old t → has_album album t.albums ≡ true → is_some result ≡ true }
        ensures counted { steps.old ≤ steps.new }
    {
        try_without(&mut self.albums, album, id, steps)
    }
}
