//! The commands of changes.
ghost use Rattle.std.specs.Prelude.{◌≡◌, ℕ, List, IfOk, None, option_map};
ghost use Rattle.http_inbox.specs.Heads.{IsHeadingOf};
ghost use Rattle.httparse.specs.Grammar.{RequestHead};
ghost use Rattle.library_model.specs.Named.{name_in, album_in};
ghost use Rattle.http_model.specs.Asking as model;
ghost use Rattle.http_model.specs.Refusals as refusals;
ghost use Rattle.http_model.specs.declared.refusals.AskingRefusal.TheVariants as cause;
ghost use Rattle.library_model.specs.Asked as asked;
ghost use Rattle.library_model.specs.Stands.{IsWithinLimit, WantsWithin};
ghost use Rattle.library_model.specs.declared.messages.Command.TheVariants as command;
ghost use Rattle.http_asking.specs.Asked.{HasHeading, wanted_said};
ghost use Rattle.http_asking.specs.Fields.{IsField};

use crate::fields::{Field, field_of, name_asked};
use crate::wants::Wanted;
use http_inbox::Heading;
use http_model::AskingRefusal;
use http_routes::Resource;
use json_bodies::{read_album, read_name};
use lib_base::{Bytes, Memory};
use library_model::{BodyKind, Command, Reply};
use std::alloc::Global;

/// The reply to what is refused for that cause.
pub(crate) fn refuse(alloc: Global, cause: AskingRefusal) -> Result<Reply, Memory>
    ensures { IfOk result (λ reply. reply ≡ refusals.asking_refusal cause) }
{
    let word = cause.word();
    let text = format!(in alloc; "{{\"error\":\"{word}\"}}")?;
    Ok(Reply {
        status: cause.status(),
        kind: BodyKind::Json,
        body: Bytes::of(text.into_bytes()),
    })
}

/// What a changing request wants at what its target names. Its head begins the bytes, and lies as
/// the heading says. The body goes into the command, without a copy.
pub fn wanted(
    alloc: Global,
    resource: Resource,
    bytes: &[u8],
    heading: &Heading,
    body: Bytes,
) -> Result<Wanted, Memory>
    requires { HasHeading bytes.now heading.now }
    ensures says { IfOk result (λ wanted. (head : RequestHead) → IsHeadingOf bytes.now heading.now head
        → wanted_said wanted ≡ model.wanted_at resource (model.name_values head) body) }
    ensures within { IfOk result (λ wanted. IsWithinLimit body → WantsWithin (wanted_said wanted)) }
{
    wanted_at(alloc, resource, field_of(bytes, heading.name), body)
}

/// What is wanted at what a target names, by the lines `Recording-Name` and the body.
fn wanted_at(
    alloc: Global,
    resource: Resource,
    name: Field<'_>,
    body: Bytes,
) -> Result<Wanted, Memory>
    ensures { IfOk result (λ wanted. (values : List (List ℕ)) → IsField name.entry values
        → wanted_said wanted ≡ model.wanted_at resource values body) }
{
    match resource {
        Resource::Albums => new_album(alloc, &body),
        Resource::Recordings => import(alloc, None, name, body),
        Resource::AlbumRecordings(album) => import(alloc, Some(album), name, body),
        Resource::Audio(recording) => Ok(Wanted::Command(Command::Retake {
            recording,
            bytes: body,
        })),
        Resource::RecordingAlbum(recording) => regroup(alloc, recording, &body),
        Resource::Recording(recording) => Ok(Wanted::Command(Command::RemoveRecording {
            recording,
        })),
        Resource::Album(album) => Ok(Wanted::Command(Command::RemoveAlbum { album })),
    }
}

/// A new album of the name that the body gives.
fn new_album(alloc: Global, body: &Bytes) -> Result<Wanted, Memory>
    ensures { IfOk result (λ wanted. wanted_said wanted
        ≡ model.or_malformed cause.Body (option_map command.NewAlbum (name_in body.now))) }
{
    match read_name(alloc, body.as_slice())? {
        Some(name) => Ok(Wanted::Command(Command::NewAlbum { name })),
        None => malformed(alloc, AskingRefusal::Body),
    }
}

/// A recording into the album that the body chooses, or into none.
fn regroup(alloc: Global, recording: u32, body: &Bytes) -> Result<Wanted, Memory>
    ensures { IfOk result (λ wanted. wanted_said wanted
        ≡ model.or_malformed cause.Body (option_map (command.Regroup recording) (album_in body.now))) }
{
    match read_album(alloc, body.as_slice())? {
        Some(album) => Ok(Wanted::Command(Command::Regroup { recording, album })),
        None => malformed(alloc, AskingRefusal::Body),
    }
}

/// An import into that album, or into none, of the name that the header lines give.
fn import(
    alloc: Global,
    album: Option<u32>,
    name: Field<'_>,
    bytes: Bytes,
) -> Result<Wanted, Memory>
    ensures { IfOk result (λ wanted. (values : List (List ℕ)) → IsField name.entry values
        → wanted_said wanted ≡ model.import_wanted album values bytes) }
{
    match name_asked(alloc, name)? {
        Some(name) => Ok(Wanted::Command(Command::Import { album, name, bytes })),
        None => malformed(alloc, AskingRefusal::Name),
    }
}

fn malformed(alloc: Global, cause: AskingRefusal) -> Result<Wanted, Memory>
    ensures { IfOk result (λ wanted. wanted_said wanted ≡ model.or_malformed cause None) }
{
    Ok(Wanted::Malformed(refuse(alloc, cause)?))
}
