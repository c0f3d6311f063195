//! Deciding a move of a recording between albums.
ghost use Rattle.std.specs.Prelude.{◌≡◌, ◌≢◌, ◌++◌, ◌∷◌, [], ℕ, List, None, false, map, true, IfOk};
ghost use Rattle.keeper_store.specs.declared.contents.Change.TheVariants as change;
ghost use Rattle.library_model.specs.declared.messages.Command.TheVariants as wanted;
ghost use Rattle.library_model.specs.Batches.{regroup_row};
ghost use Rattle.library_model.specs.Bodies.{row_reply};
ghost use Rattle.library_model.specs.RowRules.{album_is_there};
ghost use Rattle.library_model.specs.Stands.{tables_of};
ghost use Rattle.library_model.specs.State.{State};
ghost use Rattle.catalogue_rows.specs.Room.{HasPlaceIn, HasRoom};
ghost use Rattle.catalogue_rows.specs.Seeing.{is_full_in};
ghost use Rattle.catalogue_core.specs.declared.plans.TheConstants.{MOST_CHANGES};
ghost use Rattle.catalogue_core.specs.Imports.{HasRow, IsOpenTo};
ghost use Rattle.catalogue_core.specs.Kept.{Holds};
ghost use Rattle.catalogue_core.specs.Moving.{ascending};
ghost use Rattle.catalogue_core.specs.Plans.{DecidedFrom, DecidesOn, IsPlan, Leaves};
ghost use Rattle.catalogue_core.specs.Resumming.{in_list};

use crate::Library;
use crate::looking::{is_same, is_there, recording_of};
use crate::planning::plan_of;
use crate::plans::{Decision, MOST_CHANGES, Plan};
use crate::refusing::refused;
use crate::resumming::{push_album, resum_moved, resum_without};
use catalogue_rows::Fresh;
use json_bodies::describe_row;
use keeper_store::{AlbumRow, Change, RecordingRow};
use lib_base::{Memory, Steps};
use library_model::Refusal;
use std::alloc::Global;
use std::sync::ledger::Ledger;

/// What is decided of a recording that is to come into an album, or out of the one that it is in.
pub(crate) fn decide_regroup<L: Ledger>(
    library: &mut Library,
    id: u32,
    album: Option<u32>,
    steps: &mut Steps<L>,
) -> Result<Decision, Memory>
    ensures decides { DecidesOn (wanted.Regroup id album) library.old result }
    ensures leaves { Leaves library.old library.new result }
{
    let Some(old) = recording_of(library, id)? else {
        return refused(library.alloc, Refusal::NoRecording);
    };
    if !is_there(library, album) {
        return refused(library.alloc, Refusal::NoAlbum);
    }
    library.rows.reserve(MOST_CHANGES)?;
    if is_same(old.album, album) {
        return Ok(Decision::Planned(plan_same(library.alloc, &old)?));
    }
    regroup_other(library, id, old, album, steps)
}

/// The change of a recording that stays where it is: none but the kept reply.
fn plan_same(alloc: Global, old: &RecordingRow) -> Result<Plan, Memory>
    ensures { IfOk result (IsPlan [] None (row_reply 200 old.now)) }
{
    let reply = describe_row(alloc, 200, old)?;
    let changes = Vec::with_capacity(alloc, MOST_CHANGES)?;
    Ok(Plan {
        changes,
        fresh: Fresh::none(),
        released: None,
        reply,
    })
}

/// What is decided of a recording that is to come into another album, which is there, or into none.
fn regroup_other<L: Ledger>(
    library: &mut Library,
    id: u32,
    old: RecordingRow,
    album: Option<u32>,
    steps: &mut Steps<L>,
) -> Result<Decision, Memory>
    requires other { old.album ≢ album }
    requires room { HasRoom library.old.rows MOST_CHANGES }
    ensures decides { (s : State) (token mark : List ℕ) → Holds library.old (tables_of s) → IsOpenTo s token → HasRow s id old
        → album_is_there album (tables_of s).albums ≡ true → IfOk result (DecidedFrom s token mark (wanted.Regroup id album)) }
    ensures leaves { Leaves library.old library.new result }
{
    if library.rows.is_full(album) {
        return refused(library.alloc, Refusal::AlbumFull);
    }
    library.rows.reserve_in(album)?;
    plan_regroup(library, id, old, album, steps)
}

/// The change that moves a recording, into the room that was made for it.
fn plan_regroup<L: Ledger>(
    library: &mut Library,
    id: u32,
    old: RecordingRow,
    album: Option<u32>,
    steps: &mut Steps<L>,
) -> Result<Decision, Memory>
    requires other { old.album ≢ album }
    requires room { HasRoom library.old.rows MOST_CHANGES }
    requires place { HasPlaceIn library.old.rows album }
    ensures decides { (s : State) (token mark : List ℕ) → Holds library.old (tables_of s) → IsOpenTo s token → HasRow s id old
        → album_is_there album (tables_of s).albums ≡ true → is_full_in (tables_of s) album ≡ false
        → IfOk result (DecidedFrom s token mark (wanted.Regroup id album)) }
    ensures leaves { Leaves library.old library.new result }
{
    let alloc = library.alloc;
    let left = resum_without(library, old.album, old.id, steps)?;
    let joined = resum_moved(library, album, old.id, steps)?;
    let row = RecordingRow { album, ..old };
    let reply = describe_row(alloc, 200, &row)?;
    let changes = changes_of(alloc, row, left, joined)?;
    let plan = plan_of(changes, None, None, reply);
    Ok(Decision::Planned(plan))
}

/// The changes that put a recording elsewhere, and the rows of the album that it leaves and of the one
/// that it comes into, ascending.
fn changes_of(
    alloc: Global,
    row: RecordingRow,
    left: Option<AlbumRow>,
    joined: Option<AlbumRow>,
) -> Result<Vec<Change>, Memory>
    ensures { IfOk result (λ changes. changes.items ≡ change.PutRecording row ∷ map change.PutAlbum (ascending left joined)) }
{
    let mut changes = Vec::with_capacity(alloc, MOST_CHANGES)?;
    changes.push(Change::PutRecording(row))?;
    let (first, second) = in_order(left, joined);
    push_album(&mut changes, first)?;
    push_album(&mut changes, second)?;
    Ok(changes)
}

/// Two rows of albums, that of the lesser id first.
fn in_order(
    left: Option<AlbumRow>,
    joined: Option<AlbumRow>,
) -> (Option<AlbumRow>, Option<AlbumRow>)
    ensures { in_list result.0 ++ in_list result.1 ≡ ascending left joined }
{
    match (left, joined) {
        (Some(a), Some(b)) => if b.id < a.id {
            (Some(b), Some(a))
        } else {
            (Some(a), Some(b))
        },
        (left, joined) => (left, joined),
    }
}
