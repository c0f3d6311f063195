//! What a request asks, as text.

ghost use Rattle.http_asking.specs.Asked.{HasHeading};

use anyhow::{Result, bail};
use http_asking::{Asking, Wanted, ask_for, wanted};
use http_inbox::{HeadRead, Heading, Inbox};
use http_routes::{Paths, Route};
use lib_base::{Bytes, MemSource, Memory};
use library_model::{Command, Question, Reply};
use percent_encoding::percent_decode;
use std::alloc::Global;

/// What the request asks that a line writes, as a line.
pub fn answer(alloc: Global, paths: &Paths, line: &str) -> Result<String> {
    let (head, body) = request_of(alloc, line)?;
    let asked = asked(alloc, paths, Bytes::of(head), Bytes::of(body))?;
    Ok(format!(in alloc; "{asked}\n")?)
}

/// The head and the body that a line writes.
fn request_of(alloc: Global, line: &str) -> Result<(Vec<u8>, Vec<u8>)> {
    let mut head = Vec::new(alloc);
    let mut body = Vec::new(alloc);
    for (place, part) in line.split(" | ").enumerate() {
        match part.strip_prefix("body ") {
            Some(text) => add(&mut body, text)?,
            None => {
                add(&mut head, part)?;
                head.extend_from_slice(if place == 0 {
                    b" HTTP/1.1\r\n"
                } else {
                    b"\r\n"
                })?;
            }
        }
    }
    head.extend_from_slice(b"\r\n")?;
    Ok((head, body))
}

/// Adds the bytes that a text writes.
fn add(bytes: &mut Vec<u8>, text: &str) -> Result<()> {
    percent_decode(text.as_bytes()).append_to(bytes)?;
    Ok(())
}

/// What is asked by the request of that head and body.
fn asked(alloc: Global, paths: &Paths, head: Bytes, body: Bytes) -> Result<String> {
    let mut source = MemSource::new(head, Vec::new(alloc));
    let mut inbox = given(Inbox::new(alloc))?;
    match inbox.read_head(&mut source) {
        HeadRead::Head(heading) => told(alloc, paths, inbox.bytes(), &heading, body),
        HeadRead::NoHead => Ok(String::from_str(alloc, "no head")?),
        HeadRead::Ended | HeadRead::Fault => bail!("nothing is read"),
    }
}

/// What is asked by the request whose head begins the bytes.
fn told(
    alloc: Global,
    paths: &Paths,
    bytes: &[u8],
    heading: &Heading,
    body: Bytes,
) -> Result<String>
    requires { HasHeading bytes.now heading.now }
{
    match given(ask_for(alloc, paths, bytes, heading, body.as_slice()))? {
        Asking::Refused { reply, allows } => refused(alloc, &reply, allows),
        Asking::Question(Question::Recording(id)) => Ok(format!(in alloc; "recording {id}?")?),
        Asking::Question(Question::Album(id)) => Ok(format!(in alloc; "album {id}?")?),
        Asking::Change {
            token,
            mark,
            resource,
        } => {
            let wanted = given(wanted(alloc, resource, bytes, heading, body))?;
            let (token, mark) = (token.as_str(), hex::encode(alloc, mark)?);
            let change = change(alloc, &wanted)?;
            Ok(format!(in alloc; "{token} {mark} {change}")?)
        }
    }
}

/// A refusal, with the methods that it allows.
fn refused(alloc: Global, refusal: &Reply, allows: Option<Route>) -> Result<String> {
    let reply = reply(alloc, refusal)?;
    match allows {
        Some(route) => {
            let methods = route.allowed();
            Ok(format!(in alloc; "{reply} Allow: {methods}")?)
        }
        None => Ok(reply),
    }
}

/// The status and the body of a reply.
fn reply(alloc: Global, reply: &Reply) -> Result<String> {
    let status = reply.status;
    let body = str::from_utf8(reply.body.as_slice())?;
    Ok(format!(in alloc; "{status} {body}")?)
}

/// The change that is wanted.
fn change(alloc: Global, wanted: &Wanted) -> Result<String> {
    match wanted {
        Wanted::Malformed(refusal) => reply(alloc, refusal),
        Wanted::Command(command) => commanded(alloc, command),
    }
}

/// A command: its album, its name, and its file in hex.
fn commanded(alloc: Global, command: &Command) -> Result<String> {
    match command {
        Command::NewAlbum { name } => {
            let name = name.as_str();
            Ok(format!(in alloc; "new album '{name}'")?)
        }
        Command::Import { album, name, bytes } => {
            let (album, name) = (album_of(alloc, *album)?, name.as_str());
            let file = hex::encode(alloc, bytes.as_slice())?;
            Ok(format!(in alloc; "import into {album} '{name}' {file}")?)
        }
        Command::Retake { recording, bytes } => {
            let file = hex::encode(alloc, bytes.as_slice())?;
            Ok(format!(in alloc; "retake {recording} {file}")?)
        }
        Command::Regroup { recording, album } => {
            let album = album_of(alloc, *album)?;
            Ok(format!(in alloc; "regroup {recording} into {album}")?)
        }
        Command::RemoveRecording { recording: id } => Ok(format!(in alloc;
            "remove recording {id}"
        )?),
        Command::RemoveAlbum { album: id } => Ok(format!(in alloc; "remove album {id}")?),
    }
}

/// That album, or none.
fn album_of(alloc: Global, album: Option<u32>) -> Result<String> {
    match album {
        Some(id) => Ok(format!(in alloc; "album {id}")?),
        None => Ok(String::from_str(alloc, "none")?),
    }
}

/// What a call gives that may want memory.
fn given<T: Drop>(answer: Result<T, Memory>) -> Result<T> {
    match answer {
        Ok(value) => Ok(value),
        Err(Memory) => bail!("want of memory"),
    }
}
