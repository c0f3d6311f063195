//! Room made beforehand, so that changes take no memory.
ghost use Rattle.std.specs.Prelude.{◌≡◌, OnOk};
ghost use Rattle.keeper_store.specs.declared.contents.Tables.{Tables};
ghost use Rattle.catalogue_rows.specs.Holding.{Holds, numbers_of};
ghost use Rattle.catalogue_rows.specs.Room.{HasPlaceIn, HasRoom, KeepsRoom};

use crate::CatalogueRows;
use keeper_store::find_place;
use lib_base::Memory;

/// Refused, they leave what the rows hold, and the room that there was.
impl CatalogueRows {
    /// Makes room for so many rows more in each table.
    pub fn reserve(&mut self, more: usize) -> Result<(), Memory>
        ensures held { (t : Tables) → Holds self.old t → Holds self.new t }
        ensures numbers { numbers_of self.new ≡ numbers_of self.old }
        ensures kept { KeepsRoom self.old self.new }
        ensures room { OnOk result (HasRoom self.new more) }
    {
        self.albums.reserve(more)?;
        self.recordings.reserve(more)?;
        self.replies.reserve(more)?;
        Ok(())
    }

    /// Makes a place for a recording more in the album that is named, if one is and is there.
    pub fn reserve_in(&mut self, album: Option<u32>) -> Result<(), Memory>
        ensures held { (t : Tables) → Holds self.old t → Holds self.new t }
        ensures numbers { numbers_of self.new ≡ numbers_of self.old }
        ensures kept { KeepsRoom self.old self.new }
        ensures place { OnOk result (HasPlaceIn self.new album) }
    {
        let Some(id) = album else {
            return Ok(());
        };
        let Some(place) = find_place(self.albums.as_slice(), id) else {
            return Ok(());
        };
        self.albums[place].members.reserve(1)
    }
}
