//! The rows of recordings.
ghost use Rattle.std.specs.Prelude.{◌≡◌, ℕ, [], IfOk};
ghost use Rattle.std.specs.Ordering.{nat_cmp};
ghost use Rattle.std.specs.BTreeSet.{contains};
ghost use Rattle.library_model.specs.RowRules.{recording_rule, bad_recording, first_bad_of, has_album, has_segments, is_depth, is_sound};
ghost use Rattle.row_rules.specs.Beside.{beside_of};

use crate::counters::is_placed;
use crate::lookups::{album_ids, album_is_there, segment_takes};
use crate::names::is_name;
use keeper_store::{RecordingRow, Tables};
use lib_base::{
    GREATEST_DEPTH, GREATEST_PEAK, Kind, LEAST_DEPTH, MOST_CHANNELS, MOST_SAMPLES, Memory,
};
use library_model::{BadRow, RowRule, RowTable};
use std::alloc::Global;
use std::collections::BTreeSet;

/// What the tables have for a recording's row.
#[derive(Clone, Copy, Debug)]
pub(crate) struct Beside {
    /// The album that it names is there, or it names none.
    pub(crate) album_there: bool,
    /// Its take has segments.
    pub(crate) segments_there: bool,
    /// A recording before it names its take.
    pub(crate) take_named: bool,
}

/// The first row of a recording that breaks a rule.
pub(crate) fn first_bad(alloc: Global, tables: &Tables) -> Result<Option<BadRow>, Memory>
    ensures { IfOk result (λ bad. bad ≡ first_bad_of (bad_recording tables.now) [] tables.now.recordings) }
{
    let albums = album_ids(alloc, tables.albums.as_slice())?;
    let segments = segment_takes(alloc, tables.segments.as_slice())?;
    try_rows(alloc, tables, &albums, &segments)
}

fn try_rows(
    alloc: Global,
    tables: &Tables,
    albums: &BTreeSet<u32>,
    segments: &BTreeSet<u32>,
) -> Result<Option<BadRow>, Memory>
    requires albums { (id : ℕ) → contains nat_cmp albums.now id ≡ has_album id tables.now.albums }
    requires segments { (number : ℕ) → contains nat_cmp segments.now number ≡ has_segments number tables.now.segments }
    ensures { IfOk result (λ bad. bad ≡ first_bad_of (bad_recording tables.now) [] tables.now.recordings) }
{
    let mut named = BTreeSet::new(alloc);
    let mut before = 0;
    for row in tables.recordings.as_slice() {
        let first_named = named.insert(row.take)?;
        let beside = Beside {
            album_there: album_is_there(row.album, albums),
            segments_there: segments.contains(&row.take),
            take_named: !first_named,
        };
        if let Some(rule) = broken_rule(tables, before, beside, row) {
            return Ok(Some(BadRow {
                table: RowTable::Recordings,
                id: u64::from(row.id),
                rule,
            }));
        }
        before = row.id;
    }
    Ok(None)
}

/// The rule that a recording's row breaks, after the one of the id before it.
fn broken_rule(tables: &Tables, before: u32, beside: Beside, row: &RecordingRow) -> Option<RowRule>
    ensures { result ≡ recording_rule tables.now.next_recording tables.now.next_take before (beside_of beside) row.now }
{
    if !is_placed(before, tables.next_recording, row.id)
        || !is_placed(0, tables.next_take, row.take)
    {
        return Some(RowRule::OtherNumber);
    }
    if !beside.album_there {
        return Some(RowRule::NoAlbum);
    }
    if !is_name(row.name.as_str()) {
        return Some(RowRule::OtherText);
    }
    if !is_sound(row) {
        return Some(RowRule::OtherSound);
    }
    if !beside.segments_there || beside.take_named {
        return Some(RowRule::OtherTake);
    }
    None
}

/// Whether channels, depth, frames and peak are within their ranges.
fn is_sound(row: &RecordingRow) -> bool
    ensures { result ≡ is_sound row.now }
{
    let channels = 1 <= row.channels && u16::from(row.channels) <= MOST_CHANNELS;
    let depth = is_depth(row.kind, row.depth);
    let frames = row.summary.frames <= MOST_SAMPLES;
    let peak = row.summary.peak <= GREATEST_PEAK;
    channels && depth && frames && peak
}

fn is_depth(kind: Kind, depth: u8) -> bool
    ensures { result ≡ is_depth kind depth }
{
    match kind {
        Kind::Wave => depth == 16 || depth == 24,
        Kind::Flac => LEAST_DEPTH <= u32::from(depth) && u32::from(depth) <= GREATEST_DEPTH,
    }
}
