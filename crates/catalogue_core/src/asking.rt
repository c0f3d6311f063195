//! Answering a question.
ghost use Rattle.std.specs.Prelude.{◌≡◌, IfOk};
ghost use Rattle.album_merge.specs.Members as merge;
ghost use Rattle.library_model.specs.Machine.{question_reply};
ghost use Rattle.library_model.specs.State.{State};
ghost use Rattle.catalogue_core.specs.Asking.{album_reply_in, recording_reply_in};
ghost use Rattle.catalogue_core.specs.Kept.{Holds, Keeps};

use crate::Library;
use album_merge::Album;
use json_bodies::{describe_album, describe_row, refuse};
use keeper_store::{Tables, Vault};
use lib_base::Memory;
use library_model::{Question, Refusal, Reply};
use std::alloc::Global;

/// Answers a question from the rows that the library keeps: nothing is summed. It makes no call of the
/// vault, which waits for questions after files.
pub fn ask<V: Vault>(library: &Library, question: &Question, vault: &mut V) -> Result<Reply, Memory>
    ensures answers { (s : State) → Keeps library.now s → IfOk result (λ reply. reply ≡ question_reply s question.now) }
    ensures vault { vault.new ≡ vault.old }
{
    match question {
        Question::Recording(id) => ask_recording(library, *id),
        Question::Album(id) => ask_album(library, *id),
    }
}

/// Answers a question after the recording of an id.
fn ask_recording(library: &Library, id: u32) -> Result<Reply, Memory>
    ensures { (t : Tables) → Holds library.now t → IfOk result (λ reply. reply ≡ recording_reply_in t id) }
{
    match library.rows.recording(id) {
        Some(row) => describe_row(library.alloc, 200, row),
        None => refuse(library.alloc, Refusal::NoRecording),
    }
}

/// Answers a question after the album of an id.
fn ask_album(library: &Library, id: u32) -> Result<Reply, Memory>
    ensures { (t : Tables) → Holds library.now t → IfOk result (λ reply. reply ≡ album_reply_in t id) }
{
    let alloc = library.alloc;
    let Some(row) = library.rows.album(id) else {
        return refuse(alloc, Refusal::NoAlbum);
    };
    let Some(members) = library.rows.members(id) else {
        return refuse(alloc, Refusal::NoAlbum);
    };
    let ids = ids_of(alloc, members)?;
    describe_album(alloc, 200, row, ids.as_slice())
}

/// The ids of an album's recordings, ascending.
fn ids_of(alloc: Global, members: &Album) -> Result<Vec<u32>, Memory>
    ensures { IfOk result (λ ids. ids.items ≡ merge.ids_of members.now) }
{
    let mut ids = Vec::with_capacity(alloc, members.len())?;
    let mut place = 0usize;
    while place < members.len() {
        ids.push(members.id_at(place))?;
        place += 1;
    }
    Ok(ids)
}
