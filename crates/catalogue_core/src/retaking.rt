//! Deciding a new take.
ghost use Rattle.std.specs.Prelude.{◌≡◌, ◌≤◌, ◌++◌, ◌∷◌, ℕ, List, false, map, nat_le, IfOk};
ghost use Rattle.lib_base.specs.declared.limits.TheConstants.{MOST_WORKERS, NUMBERS_END};
ghost use Rattle.keeper_store.specs.EnergyBytes.{AreEnergies};
ghost use Rattle.keeper_store.specs.declared.contents.Change.TheVariants as change;
ghost use Rattle.library_model.specs.declared.messages.Command.TheVariants as wanted;
ghost use Rattle.library_model.specs.Batches.{retake_changes};
ghost use Rattle.library_model.specs.Stands.{IsWithinLimit, tables_of};
ghost use Rattle.library_model.specs.State.{State};
ghost use Rattle.catalogue_rows.specs.Room.{HasPlaceIn, HasRoom};
ghost use Rattle.catalogue_core.specs.declared.plans.TheConstants.{MOST_CHANGES};
ghost use Rattle.catalogue_core.specs.Imports.{HasRow, IsOpenTo, IsTake};
ghost use Rattle.catalogue_core.specs.Kept.{Holds, numbers_of};
ghost use Rattle.catalogue_core.specs.Plans.{DecidedFrom, DecidesOn, Leaves};
ghost use Rattle.catalogue_core.specs.Resumming.{in_list};

use crate::Library;
use crate::examining::{Examined, examine};
use crate::looking::recording_of;
use crate::planning::plan_of;
use crate::plans::{Decision, MOST_CHANGES};
use crate::refusing::{refused, refused_for};
use crate::resumming::{push_album, resum_with};
use crate::takes::{Named, row_of, segments_of};
use album_merge::TrackTally;
use json_bodies::describe_row;
use keeper_store::{AlbumRow, Change, NextNumbers, RecordingRow};
use lib_base::{Measured, Memory, NUMBERS_END, Steps};
use library_model::Refusal;
use measure_pool::Gate;
use std::alloc::Global;
use std::sync::ledger::Ledger;
use std::thread::Threads;

/// What is decided of another file for a recording.
pub(crate) fn decide_retake<R: Threads + Sync, G: Gate, L: Ledger>(
    rt: &R,
    library: &mut Library,
    id: u32,
    file: &[u8],
    workers: u32,
    gate: &G,
    steps: &mut Steps<L>,
) -> Result<Decision, Memory>
    requires some { 1 ≤ workers }
    requires most { workers ≤ MOST_WORKERS }
    requires within { IsWithinLimit file.now }
    ensures decides { DecidesOn (wanted.Retake id file.now) library.old result }
    ensures leaves { Leaves library.old library.new result }
{
    let Some(old) = recording_of(library, id)? else {
        return refused(library.alloc, Refusal::NoRecording);
    };
    match examine(rt, library.alloc, file, workers, gate)? {
        Examined::Broken(fault) => refused_for(library.alloc, fault),
        Examined::Accepted(measured, tally) => {
            retake_measured(library, id, old, file, &measured, tally, steps)
        }
    }
}

/// What is decided of another file, of which that is measured, for a recording that is there.
fn retake_measured<L: Ledger>(
    library: &mut Library,
    id: u32,
    old: RecordingRow,
    file: &[u8],
    measured: &Measured,
    tally: TrackTally,
    steps: &mut Steps<L>,
) -> Result<Decision, Memory>
    requires { AreEnergies measured.now.energies }
    ensures decides { (s : State) (token mark : List ℕ) → Holds library.old (tables_of s) → IsOpenTo s token → HasRow s id old
        → IsTake file.now measured.now tally → IfOk result (DecidedFrom s token mark (wanted.Retake id file.now)) }
    ensures leaves { Leaves library.old library.new result }
{
    if library.rows.next_numbers().take >= NUMBERS_END {
        return refused(library.alloc, Refusal::Ids);
    }
    library.rows.reserve(MOST_CHANGES)?;
    library.rows.reserve_in(old.album)?;
    plan_retake(library, id, old, file, measured, tally, steps)
}

/// The change that puts a recording under the next take, into the room that was made for it.
fn plan_retake<L: Ledger>(
    library: &mut Library,
    id: u32,
    old: RecordingRow,
    file: &[u8],
    measured: &Measured,
    tally: TrackTally,
    steps: &mut Steps<L>,
) -> Result<Decision, Memory>
    requires energies { AreEnergies measured.now.energies }
    requires left { nat_le NUMBERS_END (numbers_of library.old).take ≡ false }
    requires room { HasRoom library.old.rows MOST_CHANGES }
    requires place { HasPlaceIn library.old.rows old.album }
    ensures decides { (s : State) (token mark : List ℕ) → Holds library.old (tables_of s) → IsOpenTo s token → HasRow s id old
        → IsTake file.now measured.now tally → IfOk result (DecidedFrom s token mark (wanted.Retake id file.now)) }
    ensures leaves { Leaves library.old library.new result }
{
    let alloc = library.alloc;
    let next = library.rows.next_numbers();
    let summary = tally.summary();
    let (resummed, tally) = resum_with(library, old.album, old.id, tally, steps)?;
    let taken = old.take;
    let named = Named {
        id: old.id,
        album: old.album,
        name: old.name,
    };
    let row = row_of(named, next.take, file, measured, summary);
    let reply = describe_row(alloc, 200, &row)?;
    let changes = changes_of(alloc, next, row, measured, taken, resummed)?;
    let plan = plan_of(changes, Some(tally), Some(taken), reply);
    Ok(Decision::Planned(plan))
}

/// The changes that put a recording under the next take, its segments before it, drop those of the
/// take before, and put its album's row.
fn changes_of(
    alloc: Global,
    next: NextNumbers,
    row: RecordingRow,
    measured: &Measured,
    taken: u32,
    album: Option<AlbumRow>,
) -> Result<Vec<Change>, Memory>
    requires energies { AreEnergies measured.now.energies }
    requires left { nat_le NUMBERS_END next.take ≡ false }
    ensures { IfOk result (λ changes. changes.items ≡ retake_changes next measured.now row ++ change.DropSegments taken ∷ map change.PutAlbum (in_list album)) }
{
    let mut changes = Vec::with_capacity(alloc, MOST_CHANGES)?;
    changes.push(Change::Counters {
        next_album: next.album,
        next_recording: next.recording,
        next_take: next.take + 1,
    })?;
    changes.push(Change::PutSegments(segments_of(alloc, row.take, measured)?))?;
    changes.push(Change::PutRecording(row))?;
    changes.push(Change::DropSegments { take: taken })?;
    push_album(&mut changes, album)?;
    Ok(changes)
}
