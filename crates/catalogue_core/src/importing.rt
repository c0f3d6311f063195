//! Deciding an import.
ghost use Rattle.std.specs.Prelude.{◌≡◌, ◌≤◌, ◌++◌, ℕ, List, true, false, map, IfOk};
ghost use Rattle.lib_base.specs.declared.limits.TheConstants.{MOST_WORKERS};
ghost use Rattle.keeper_store.specs.EnergyBytes.{AreEnergies};
ghost use Rattle.keeper_store.specs.declared.contents.Change.TheVariants as change;
ghost use Rattle.library_model.specs.declared.messages.Command.TheVariants as wanted;
ghost use Rattle.library_model.specs.Batches.{import_changes, import_row};
ghost use Rattle.library_model.specs.Names.{is_name};
ghost use Rattle.library_model.specs.Stands.{IsWithinLimit, tables_of};
ghost use Rattle.library_model.specs.State.{State};
ghost use Rattle.catalogue_core.specs.Imports.{IsHome, IsOpenTo, IsTake};
ghost use Rattle.catalogue_rows.specs.Room.{HasPlaceIn, HasRoom};
ghost use Rattle.catalogue_rows.specs.Seeing.{is_full_in};
ghost use Rattle.catalogue_core.specs.Kept.{Holds, numbers_of};
ghost use Rattle.catalogue_core.specs.Looking.{lacks_numbers};
ghost use Rattle.catalogue_core.specs.declared.plans.TheConstants.{MOST_CHANGES};
ghost use Rattle.catalogue_core.specs.Plans.{DecidedFrom, DecidesOn, Leaves};
ghost use Rattle.catalogue_core.specs.Resumming.{in_list};

use crate::Library;
use crate::examining::{Examined, examine};
use crate::looking::is_there;
use crate::planning::plan_of;
use crate::plans::{Decision, MOST_CHANGES};
use crate::refusing::{refused, refused_for};
use crate::resumming::{push_album, resum_with};
use crate::takes::{Named, row_of, segments_of};
use album_merge::TrackTally;
use json_bodies::describe_row;
use keeper_store::{AlbumRow, Change, NextNumbers, RecordingRow};
use lib_base::{Measured, Memory, NUMBERS_END, Steps, Summary, Text};
use library_model::Refusal;
use measure_pool::Gate;
use std::alloc::Global;
use std::sync::ledger::Ledger;
use std::thread::Threads;

/// What is decided of the import of a file, of this name, into an album or into none.
pub(crate) fn decide_import<R: Threads + Sync, G: Gate, L: Ledger>(
    rt: &R,
    library: &mut Library,
    album: Option<u32>,
    name: &Text,
    file: &[u8],
    workers: u32,
    gate: &G,
    steps: &mut Steps<L>,
) -> Result<Decision, Memory>
    requires some { 1 ≤ workers }
    requires most { workers ≤ MOST_WORKERS }
    requires named { is_name name.now ≡ true }
    requires within { IsWithinLimit file.now }
    ensures decides { DecidesOn (wanted.Import album name.now file.now) library.old result }
    ensures leaves { Leaves library.old library.new result }
{
    if !is_there(library, album) {
        return refused(library.alloc, Refusal::NoAlbum);
    }
    match examine(rt, library.alloc, file, workers, gate)? {
        Examined::Broken(fault) => refused_for(library.alloc, fault),
        Examined::Accepted(measured, tally) => {
            import_measured(library, album, name, file, &measured, tally, steps)
        }
    }
}

/// What is decided of the import of a file of which that is measured, into an album that is there.
fn import_measured<L: Ledger>(
    library: &mut Library,
    album: Option<u32>,
    name: &Text,
    file: &[u8],
    measured: &Measured,
    tally: TrackTally,
    steps: &mut Steps<L>,
) -> Result<Decision, Memory>
    requires { AreEnergies measured.now.energies }
    ensures decides { (s : State) (token mark : List ℕ) → Holds library.old (tables_of s) → IsOpenTo s token → IsHome s album name.now
        → IsTake file.now measured.now tally → IfOk result (DecidedFrom s token mark (wanted.Import album name.now file.now)) }
    ensures leaves { Leaves library.old library.new result }
{
    let alloc = library.alloc;
    if library.rows.is_full(album) {
        return refused(alloc, Refusal::AlbumFull);
    }
    if lacks_numbers(library.rows.next_numbers()) {
        return refused(alloc, Refusal::Ids);
    }
    library.rows.reserve(MOST_CHANGES)?;
    library.rows.reserve_in(album)?;
    plan_import(library, album, name, file, measured, tally, steps)
}

fn lacks_numbers(next: NextNumbers) -> bool
    ensures { result ≡ lacks_numbers next }
{
    next.recording >= NUMBERS_END || next.take >= NUMBERS_END
}

/// The change that imports a file into the room that was made for it.
fn plan_import<L: Ledger>(
    library: &mut Library,
    album: Option<u32>,
    name: &Text,
    file: &[u8],
    measured: &Measured,
    tally: TrackTally,
    steps: &mut Steps<L>,
) -> Result<Decision, Memory>
    requires energies { AreEnergies measured.now.energies }
    requires left { lacks_numbers (numbers_of library.old) ≡ false }
    requires room { HasRoom library.old.rows MOST_CHANGES }
    requires place { HasPlaceIn library.old.rows album }
    ensures decides { (s : State) (token mark : List ℕ) → Holds library.old (tables_of s) → IsOpenTo s token → IsHome s album name.now
        → IsTake file.now measured.now tally → is_full_in (tables_of s) album ≡ false
        → IfOk result (DecidedFrom s token mark (wanted.Import album name.now file.now)) }
    ensures leaves { Leaves library.old library.new result }
{
    let alloc = library.alloc;
    let next = library.rows.next_numbers();
    let summary = tally.summary();
    let (resummed, tally) = resum_with(library, album, next.recording, tally, steps)?;
    let row = new_row(next, album, name, file, measured, summary)?;
    let reply = describe_row(alloc, 201, &row)?;
    let changes = changes_of(alloc, next, row, measured, resummed)?;
    let plan = plan_of(changes, Some(tally), None, reply);
    Ok(Decision::Planned(plan))
}

/// The row of a recording of the next numbers.
fn new_row(
    next: NextNumbers,
    album: Option<u32>,
    name: &Text,
    file: &[u8],
    measured: &Measured,
    summary: Summary,
) -> Result<RecordingRow, Memory>
    ensures { IfOk result (λ row. row ≡ import_row next album name.now file.now measured.now summary) }
{
    let named = Named {
        id: next.recording,
        album,
        name: name.clone()?,
    };
    Ok(row_of(named, next.take, file, measured, summary))
}

/// The changes that put a recording of the next numbers, its segments before it, and its album's row.
fn changes_of(
    alloc: Global,
    next: NextNumbers,
    row: RecordingRow,
    measured: &Measured,
    album: Option<AlbumRow>,
) -> Result<Vec<Change>, Memory>
    requires energies { AreEnergies measured.now.energies }
    requires left { lacks_numbers next ≡ false }
    ensures { IfOk result (λ changes. changes.items ≡ import_changes next measured.now row ++ map change.PutAlbum (in_list album)) }
{
    let mut changes = Vec::with_capacity(alloc, MOST_CHANGES)?;
    changes.push(Change::Counters {
        next_album: next.album,
        next_recording: next.recording + 1,
        next_take: next.take + 1,
    })?;
    changes.push(Change::PutSegments(segments_of(alloc, row.take, measured)?))?;
    changes.push(Change::PutRecording(row))?;
    push_album(&mut changes, album)?;
    Ok(changes)
}
