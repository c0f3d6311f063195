//! What a command names, looked up in the rows.
ghost use Rattle.std.specs.Prelude.{◌≡◌, ◌≢◌, ◌==◌, true, false, nat_lt, IfOk};
ghost use Rattle.std.specs.List.{find};
ghost use Rattle.library_model.specs.RowRules.{album_is_there, has_album, member_count};
ghost use Rattle.catalogue_core.specs.Kept.{Holds};

use crate::Library;
use keeper_store::{RecordingRow, Tables};
use lib_base::Memory;

/// Whether the album that is named is there, or none is named.
pub(crate) fn is_there(library: &Library, album: Option<u32>) -> bool
    ensures { (t : Tables) → Holds library.now t → result ≡ album_is_there album t.albums }
{
    match album {
        Some(id) => library.rows.album(id).is_some(),
        None => true,
    }
}

/// Whether the album of an id, which is there, has a recording.
pub(crate) fn has_members(library: &Library, id: u32) -> bool
    ensures { (t : Tables) → Holds library.now t → has_album id t.albums ≡ true → result ≡ nat_lt 0 (member_count id t.recordings) }
{
    match library.rows.members(id) {
        Some(members) => members.len() > 0,
        None => false,
    }
}

/// Whether two albums that are named, or none, are the same.
pub(crate) fn is_same(one: Option<u32>, other: Option<u32>) -> bool
    ensures same { result ≡ true → one ≡ other }
    ensures apart { result ≡ false → one ≢ other }
{
    match (one, other) {
        (Some(a), Some(b)) => a == b,
        (None, None) => true,
        _ => false,
    }
}

/// A copy of the row of the recording of an id, if it is there.
pub(crate) fn recording_of(library: &Library, id: u32) -> Result<Option<RecordingRow>, Memory>
    ensures { (t : Tables) → Holds library.now t
        → IfOk result (λ row. row ≡ find (λ (r : RecordingRow). r.id == id) t.recordings) }
{
    match library.rows.recording(id) {
        Some(row) => Ok(Some(row.clone()?)),
        None => Ok(None),
    }
}
