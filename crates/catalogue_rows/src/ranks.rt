//! The orders of kept rows.
ghost use Rattle.std.specs.Prelude.{refl};
ghost use Rattle.catalogue_rows.specs.KeptOrders.{kept_album_less, kept_recording_less, kept_album_id, kept_recording_id, kept_albums_in_order, kept_recordings_in_order};

use crate::kept::{KeptAlbum, KeptRecording};
use keeper_store::{Numbered, Ranked};

/// By ids.
impl Ranked for KeptAlbum {
    ghost less = { kept_album_less };

    ghost order = { kept_albums_in_order };

    fn is_before(&self, other: &KeptAlbum) -> bool {
        self.row.id < other.row.id
    }
}

/// Its id.
impl Numbered for KeptAlbum {
    ghost number_of = { kept_album_id };

    ghost by_number = { λ a b. refl };

    fn number(&self) -> u32 {
        self.row.id
    }
}

/// By ids.
impl Ranked for KeptRecording {
    ghost less = { kept_recording_less };

    ghost order = { kept_recordings_in_order };

    fn is_before(&self, other: &KeptRecording) -> bool {
        self.row.id < other.row.id
    }
}

/// Its id.
impl Numbered for KeptRecording {
    ghost number_of = { kept_recording_id };

    ghost by_number = { λ a b. refl };

    fn number(&self) -> u32 {
        self.row.id
    }
}
