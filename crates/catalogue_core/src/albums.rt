//! New albums, and albums that are removed.
ghost use Rattle.std.specs.Prelude.{◌≡◌, ◌∷◌, [], false, nat_le, None, IfOk};
ghost use Rattle.lib_base.specs.declared.limits.TheConstants.{NUMBERS_END};
ghost use Rattle.keeper_store.specs.declared.contents.Change.TheVariants as change;
ghost use Rattle.library_model.specs.declared.messages.Command.TheVariants as wanted;
ghost use Rattle.library_model.specs.Batches.{new_album_changes, new_album_row};
ghost use Rattle.library_model.specs.Bodies.{album_row_reply, removed_reply};
ghost use Rattle.library_model.specs.Machine.{no_levels};
ghost use Rattle.catalogue_rows.specs.Making.{IsEmptyAlbum};
ghost use Rattle.catalogue_core.specs.Plans.{DecidesOn, IsPlan, Leaves};

use crate::Library;
use crate::looking::{has_members, is_there};
use crate::plans::{Decision, MOST_CHANGES, Plan};
use crate::refusing::refused;
use album_merge::Album;
use catalogue_rows::Fresh;
use json_bodies::{describe_album, describe_removed};
use keeper_store::{AlbumRow, Change, NextNumbers};
use lib_base::{Memory, NUMBERS_END, Summary, Text};
use library_model::Refusal;
use std::alloc::Global;

/// What is decided of a new album of this name.
pub(crate) fn decide_new_album(library: &mut Library, name: &Text) -> Result<Decision, Memory>
    ensures decides { DecidesOn (wanted.NewAlbum name.now) library.old result }
    ensures leaves { Leaves library.old library.new result }
{
    let alloc = library.alloc;
    let next = library.rows.next_numbers();
    if next.album >= NUMBERS_END {
        return refused(alloc, Refusal::Ids);
    }
    library.rows.reserve(MOST_CHANGES)?;
    Ok(Decision::Planned(plan_new_album(alloc, next, name)?))
}

/// The change that makes an album of this name under the next number.
fn plan_new_album(alloc: Global, next: NextNumbers, name: &Text) -> Result<Plan, Memory>
    requires { nat_le NUMBERS_END next.album ≡ false }
    ensures plan { IfOk result (IsPlan (new_album_changes next (new_album_row next name.now)) None
        (album_row_reply 201 (new_album_row next name.now) [])) }
    ensures empty { IfOk result (λ plan. IsEmptyAlbum plan.fresh.album) }
    ensures tally { IfOk result (λ plan. plan.fresh.tally ≡ None) }
{
    let row = AlbumRow {
        id: next.album,
        name: name.clone()?,
        summary: no_levels(),
    };
    let reply = describe_album(alloc, 201, &row, [].as_slice())?;
    let album = Some(Album::new(alloc)?);
    let mut changes = Vec::with_capacity(alloc, MOST_CHANGES)?;
    changes.push(Change::Counters {
        next_album: next.album + 1,
        next_recording: next.recording,
        next_take: next.take,
    })?;
    changes.push(Change::PutAlbum(row))?;
    Ok(Plan {
        changes,
        fresh: Fresh { tally: None, album },
        released: None,
        reply,
    })
}

/// The levels of no recording.
fn no_levels() -> Summary
    ensures { result ≡ no_levels }
{
    Summary {
        frames: 0,
        loudness: None,
        range: None,
        momentary: None,
        short_term: None,
        true_peak: None,
        peak: 0,
        gain: None,
    }
}

/// What is decided of an album that is to be removed.
pub(crate) fn decide_remove_album(library: &mut Library, id: u32) -> Result<Decision, Memory>
    ensures decides { DecidesOn (wanted.RemoveAlbum id) library.old result }
    ensures leaves { Leaves library.old library.new result }
{
    let alloc = library.alloc;
    if !is_there(library, Some(id)) {
        return refused(alloc, Refusal::NoAlbum);
    }
    if has_members(library, id) {
        return refused(alloc, Refusal::NotEmpty);
    }
    library.rows.reserve(MOST_CHANGES)?;
    Ok(Decision::Planned(plan_remove_album(alloc, id)?))
}

/// The change that removes an album.
fn plan_remove_album(alloc: Global, id: u32) -> Result<Plan, Memory>
    ensures plan { IfOk result (IsPlan (change.DropAlbum id ∷ []) None (removed_reply id)) }
    ensures new { IfOk result (λ plan. plan.fresh.album ≡ None) }
{
    let reply = describe_removed(alloc, id)?;
    let mut changes = Vec::with_capacity(alloc, MOST_CHANGES)?;
    changes.push(Change::DropAlbum { id })?;
    Ok(Plan {
        changes,
        fresh: Fresh::none(),
        released: None,
        reply,
    })
}
