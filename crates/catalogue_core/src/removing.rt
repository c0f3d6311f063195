//! Deciding the removal of a recording.
ghost use Rattle.std.specs.Prelude.{◌≡◌, ◌∷◌, ℕ, List, map, IfOk};
ghost use Rattle.keeper_store.specs.declared.contents.Change.TheVariants as change;
ghost use Rattle.library_model.specs.declared.messages.Command.TheVariants as wanted;
ghost use Rattle.library_model.specs.Stands.{tables_of};
ghost use Rattle.library_model.specs.State.{State};
ghost use Rattle.catalogue_rows.specs.Room.{HasRoom};
ghost use Rattle.catalogue_core.specs.declared.plans.TheConstants.{MOST_CHANGES};
ghost use Rattle.catalogue_core.specs.Imports.{HasRow, IsOpenTo};
ghost use Rattle.catalogue_core.specs.Kept.{Holds};
ghost use Rattle.catalogue_core.specs.Plans.{DecidedFrom, DecidesOn, Leaves};
ghost use Rattle.catalogue_core.specs.Resumming.{in_list};

use crate::Library;
use crate::looking::recording_of;
use crate::planning::plan_of;
use crate::plans::{Decision, MOST_CHANGES};
use crate::refusing::refused;
use crate::resumming::{push_album, resum_without};
use json_bodies::describe_removed;
use keeper_store::{AlbumRow, Change, RecordingRow};
use lib_base::{Memory, Steps};
use library_model::Refusal;
use std::alloc::Global;
use std::sync::ledger::Ledger;

/// What is decided of a recording that is to be removed.
pub(crate) fn decide_remove<L: Ledger>(
    library: &mut Library,
    id: u32,
    steps: &mut Steps<L>,
) -> Result<Decision, Memory>
    ensures decides { DecidesOn (wanted.RemoveRecording id) library.old result }
    ensures leaves { Leaves library.old library.new result }
{
    let Some(old) = recording_of(library, id)? else {
        return refused(library.alloc, Refusal::NoRecording);
    };
    library.rows.reserve(MOST_CHANGES)?;
    plan_remove(library, id, &old, steps)
}

/// The change that removes a recording, into the room that was made for it.
fn plan_remove<L: Ledger>(
    library: &mut Library,
    id: u32,
    old: &RecordingRow,
    steps: &mut Steps<L>,
) -> Result<Decision, Memory>
    requires { HasRoom library.old.rows MOST_CHANGES }
    ensures decides { (s : State) (token mark : List ℕ) → Holds library.old (tables_of s) → IsOpenTo s token → HasRow s id old.now
        → IfOk result (DecidedFrom s token mark (wanted.RemoveRecording id)) }
    ensures leaves { Leaves library.old library.new result }
{
    let alloc = library.alloc;
    let resummed = resum_without(library, old.album, old.id, steps)?;
    let reply = describe_removed(alloc, old.id)?;
    let changes = changes_of(alloc, old, resummed)?;
    let plan = plan_of(changes, None, Some(old.take), reply);
    Ok(Decision::Planned(plan))
}

/// The changes that drop a recording and its segments, and put its album's row.
fn changes_of(
    alloc: Global,
    old: &RecordingRow,
    album: Option<AlbumRow>,
) -> Result<Vec<Change>, Memory>
    ensures { IfOk result (λ changes. changes.items
        ≡ change.DropRecording old.now.id ∷ change.DropSegments old.now.take ∷ map change.PutAlbum (in_list album)) }
{
    let mut changes = Vec::with_capacity(alloc, MOST_CHANGES)?;
    changes.push(Change::DropRecording { id: old.id })?;
    changes.push(Change::DropSegments { take: old.take })?;
    push_album(&mut changes, album)?;
    Ok(changes)
}
