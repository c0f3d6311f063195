//! The bodies of replies.
ghost use Rattle.std.specs.Prelude.{◌≡◌, IfOk, codes, string_bytes};
ghost use Rattle.serde_json.specs.Data.{member, no_members, number, object, unsigned};
ghost use Rattle.serde_json.specs.Written.{compact_text};
ghost use Rattle.library_model.specs.Bodies.{album_data, album_row_reply, kind_text, recording_data, removed_reply, row_reply};
ghost use Rattle.library_model.specs.Replies as model;
ghost use Rattle.json_bodies.specs.Objects.{members_of};

use crate::objects::Object;
use keeper_store::{AlbumRow, RecordingRow};
use lib_base::{Broken, Bytes, Kind, Memory};
use library_model::{BodyKind, Refusal, Reply};
use std::alloc::Global;

/// The refusal for that cause.
pub fn refuse(alloc: Global, cause: Refusal) -> Result<Reply, Memory>
    ensures { IfOk result (λ reply. reply ≡ model.refusal cause) }
{
    let word = cause.word();
    let text = format!(in alloc; "{{\"error\":\"{word}\"}}")?;
    Ok(json_reply(cause.status(), text))
}

/// The refusal of a file that breaks a rule.
pub fn refuse_format(alloc: Global, broken: Broken) -> Result<Reply, Memory>
    ensures { IfOk result (λ reply. reply ≡ model.format_refusal broken.rule broken.place) }
{
    let Broken { rule, place } = broken;
    let word = Refusal::Format.word();
    let text = format!(in alloc; "{{\"error\":\"{word}\",\"place\":{place},\"rule\":\"{rule}\"}}")?;
    Ok(json_reply(Refusal::Format.status(), text))
}

/// What is replied about the recording of a row, with that status.
pub fn describe_row(alloc: Global, status: u16, row: &RecordingRow) -> Result<Reply, Memory>
    ensures { IfOk result (λ reply. reply ≡ row_reply status row.now) }
{
    let text = recording_text(alloc, row)?;
    Ok(json_reply(status, text))
}

/// What is replied about the album of a row, with that status. `ids` are those of its recordings.
pub fn describe_album(
    alloc: Global,
    status: u16,
    row: &AlbumRow,
    ids: &[u32],
) -> Result<Reply, Memory>
    ensures { IfOk result (λ reply. reply ≡ album_row_reply status row.now ids.now) }
{
    let text = album_text(alloc, row, ids)?;
    Ok(json_reply(status, text))
}

/// What is replied about what was removed: its id.
pub fn describe_removed(alloc: Global, id: u32) -> Result<Reply, Memory>
    ensures { IfOk result (λ reply. reply ≡ removed_reply id) }
{
    let text = removed_text(alloc, id)?;
    Ok(json_reply(200, text))
}

fn recording_text(alloc: Global, row: &RecordingRow) -> Result<String, Memory>
    ensures { IfOk result (λ text. string_bytes text ≡ compact_text (recording_data row.now)) }
{
    let object = recording_object(alloc, row)?;
    object.into_text()
}

fn recording_object(alloc: Global, row: &RecordingRow) -> Result<Object, Memory>
    ensures { IfOk result (λ made. object (members_of made) ≡ recording_data row.now) }
{
    let mut object = Object::new(alloc);
    object.album("album", row.album)?;
    object.number("channels", u64::from(row.channels))?;
    object.number("depth", u64::from(row.depth))?;
    object.number("frames", row.summary.frames)?;
    object.number("id", u64::from(row.id))?;
    object.text("kind", kind_text(row.kind))?;
    object.text("name", row.name.as_str())?;
    object.number("take", u64::from(row.take))?;
    object.levels(row.summary)?;
    Ok(object)
}

fn album_text(alloc: Global, row: &AlbumRow, ids: &[u32]) -> Result<String, Memory>
    ensures { IfOk result (λ text. string_bytes text ≡ compact_text (album_data row.now ids.now)) }
{
    let object = album_object(alloc, row, ids)?;
    object.into_text()
}

fn album_object(alloc: Global, row: &AlbumRow, ids: &[u32]) -> Result<Object, Memory>
    ensures { IfOk result (λ made. object (members_of made) ≡ album_data row.now ids.now) }
{
    let mut object = Object::new(alloc);
    object.number("id", u64::from(row.id))?;
    object.text("name", row.name.as_str())?;
    object.ids("recordings", ids)?;
    object.levels(row.summary)?;
    Ok(object)
}

/// The text of an object that has an id alone.
fn removed_text(alloc: Global, id: u32) -> Result<String, Memory>
    ensures { IfOk result (λ text. string_bytes text
        ≡ compact_text (object (member (codes "removed") (number (unsigned id)) no_members))) }
{
    let mut object = Object::new(alloc);
    object.number("removed", u64::from(id))?;
    object.into_text()
}

/// The text that a kind of file is answered as.
fn kind_text(kind: Kind) -> &'static str
    ensures { result.now ≡ kind_text kind }
{
    match kind {
        Kind::Wave => "wave",
        Kind::Flac => "flac",
    }
}

fn json_reply(status: u16, text: String) -> Reply
    ensures { result ≡ model.json status (string_bytes text) }
{
    Reply {
        status,
        kind: BodyKind::Json,
        body: Bytes::of(text.into_bytes()),
    }
}
