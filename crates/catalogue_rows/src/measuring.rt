//! Tallies made of the segments of tables.
ghost use Rattle.std.specs.Prelude.{◌≡◌, None, Contains, IfOk};
ghost use Rattle.keeper_store.specs.Puts.{segments_less, Ascends};
ghost use Rattle.album_merge.specs.Tallies.{StandsForMeasured};
ghost use Rattle.library_model.specs.RowRules.{first_bad_row, measured_in, energies_of_take};
ghost use Rattle.catalogue_rows.specs.Measuring.{IsDecodedTake};

use album_merge::TrackTally;
use keeper_store::{RecordingRow, RowFault, SegmentRow, Tables, energies_of, find_row};
use lib_base::{Energies, Measured, Memory};
use std::alloc::Global;
use std::marker::Sync;
use std::thread::Threads;

/// The tally of a recording of tables of which no row is bad.
pub(crate) fn tally_of<R: Threads + Sync>(
    rt: &R,
    alloc: Global,
    tables: &Tables,
    row: &RecordingRow,
) -> Result<TrackTally, Memory>
    requires unbroken { first_bad_row tables.now ≡ None }
    requires there { Contains tables.now.recordings row.now }
    ensures { IfOk result (λ tally. StandsForMeasured tally (measured_in tables.now row.now)) }
{
    let measured = measured_of(alloc, tables, row)?;
    TrackTally::make(rt, alloc, &measured)
}

/// What the tables have as measured of a recording.
fn measured_of(alloc: Global, tables: &Tables, row: &RecordingRow) -> Result<Measured, Memory>
    requires ascend { Ascends segments_less tables.now.segments }
    requires decoded { IsDecodedTake row.now.take tables.now.segments }
    ensures { IfOk result (λ measured. measured ≡ measured_in tables.now row.now) }
{
    let energies = energies_of_take(alloc, tables.segments.as_slice(), row.take)?;
    Ok(Measured {
        channels: row.channels,
        depth: row.depth,
        frames: row.summary.frames,
        energies,
        peak: row.summary.peak,
    })
}

/// The energies of a take, none where it has no segments.
fn energies_of_take(alloc: Global, segments: &[SegmentRow], take: u32) -> Result<Energies, Memory>
    requires ascend { Ascends segments_less segments.now }
    requires decoded { IsDecodedTake take segments.now }
    ensures { IfOk result (λ energies. energies ≡ energies_of_take take segments.now) }
{
    let Some(row) = find_row(segments, take) else {
        return Ok(Energies::of(Vec::new(alloc)));
    };
    match energies_of(alloc, row.energies.as_slice()) {
        Ok(energies) => Ok(energies),
        Err(RowFault::Memory) => Err(Memory),
        Err(RowFault::Length | RowFault::TooGreat) => unreachable!(),
    }
}
