//! What rows are looked up by: ids and takes, each found by halving.
ghost use Rattle.std.specs.Prelude.{◌≡◌, ℕ, List, IfOk, unwrap_or};
ghost use Rattle.std.specs.Ordering.{nat_cmp};
ghost use Rattle.std.specs.BTreeMap.{get};
ghost use Rattle.std.specs.BTreeSet.{contains};
ghost use Rattle.library_model.specs.RowRules.{has_album, has_segments, member_count, frames_of_take, album_is_there};

use keeper_store::{AlbumRow, RecordingRow, SegmentRow};
use lib_base::Memory;
use std::alloc::Global;
use std::collections::{BTreeMap, BTreeSet};

/// The ids of albums.
pub(crate) fn album_ids(alloc: Global, albums: &[AlbumRow]) -> Result<BTreeSet<u32>, Memory>
    ensures { IfOk result (λ ids. (id : ℕ) → contains nat_cmp ids id ≡ has_album id albums.now) }
{
    let mut ids = BTreeSet::new(alloc);
    for row in albums {
        ids.insert(row.id)?;
    }
    Ok(ids)
}

/// The takes that have segments.
pub(crate) fn segment_takes(alloc: Global, segments: &[SegmentRow]) -> Result<BTreeSet<u32>, Memory>
    ensures { IfOk result (λ takes. (number : ℕ) → contains nat_cmp takes number ≡ has_segments number segments.now) }
{
    let mut takes = BTreeSet::new(alloc);
    for row in segments {
        takes.insert(row.take)?;
    }
    Ok(takes)
}

/// How many recordings name each album.
pub(crate) fn member_counts(
    alloc: Global,
    recordings: &[RecordingRow],
) -> Result<BTreeMap<u32, u64>, Memory>
    ensures { IfOk result (λ counts. (id : ℕ) → unwrap_or (get nat_cmp counts id) 0 ≡ member_count id recordings.now) }
{
    let mut counts = BTreeMap::new(alloc);
    for row in recordings {
        if let Some(album) = row.album {
            let count = count_of(&counts, album);
            counts.insert(album, count + 1)?;
        }
    }
    Ok(counts)
}

/// The count of an album, 0 where there is none.
pub(crate) fn count_of(counts: &BTreeMap<u32, u64>, album: u32) -> u64
    ensures { result ≡ unwrap_or (get nat_cmp counts.now album) 0 }
{
    counts.get(&album).copied().unwrap_or(0)
}

/// The frames of the first recording that names each take: of several, the last one put is the
/// first of the rows.
pub(crate) fn frames_by_take(
    alloc: Global,
    recordings: &[RecordingRow],
) -> Result<BTreeMap<u32, u64>, Memory>
    ensures { IfOk result (λ frames. (number : ℕ) → get nat_cmp frames number ≡ frames_of_take number recordings.now) }
{
    let mut frames = BTreeMap::new(alloc);
    let mut left = recordings.len();
    while left > 0 {
        left -= 1;
        let row = &recordings[left];
        frames.insert(row.take, row.summary.frames)?;
    }
    Ok(frames)
}

/// The frames of a take, None where no recording names it.
pub(crate) fn frames_at(frames: &BTreeMap<u32, u64>, take: u32) -> Option<u64>
    ensures { result ≡ get nat_cmp frames.now take }
{
    frames.get(&take).copied()
}

/// Whether the album that a recording names is among these, or it names none.
pub(crate) fn album_is_there(album: Option<u32>, ids: &BTreeSet<u32>) -> bool
    ensures { (albums : List AlbumRow) → ((id : ℕ) → contains nat_cmp ids.now id ≡ has_album id albums)
        → result ≡ album_is_there album albums }
{
    match album {
        Some(id) => ids.contains(&id),
        None => true,
    }
}
