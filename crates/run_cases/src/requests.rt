//! Requests, as lines of a case ask for them.

use crate::files::{File, find};
use anyhow::{Context, Result, bail};
use std::alloc::Global;

/// What the lines before ask of the next request.
#[derive(Clone, Copy)]
pub struct Next<'a> {
    /// How many requests have come under a number of their own.
    pub numbered: u32,
    token: Option<&'a str>,
    name: Option<&'a str>,
    album: Option<&'a str>,
    times: u32,
    closing: bool,
}

impl<'a> Next<'a> {
    /// A request as any other, behind so many that came under a number.
    pub fn plain(numbered: u32) -> Next<'a> {
        Next {
            numbered,
            token: None,
            name: None,
            album: None,
            times: 1,
            closing: false,
        }
    }
}

/// A request, without the lines that the lines before ask for.
#[derive(Drop)]
struct Request {
    method: &'static str,
    target: String,
    body: Option<Vec<u8>>,
}

/// Asks something of the next request.
pub fn set_next<'a>(next: &mut Next<'a>, word: &str, rest: &'a str) -> Result<()> {
    match word {
        "token" => next.token = Some(rest),
        "named" => next.name = Some(rest),
        "into" => next.album = Some(rest),
        "times" => next.times = rest.parse::<u32>()?,
        "closing" => next.closing = true,
        _ => bail!("nothing to ask of a request"),
    }
    Ok(())
}

/// Adds the request of a line, as often as it is to come. The next one is as any other.
pub fn add_request(
    alloc: Global,
    input: &mut Vec<u8>,
    next: &mut Next<'_>,
    word: &str,
    rest: &str,
    files: &[File],
) -> Result<()> {
    let request = match word {
        "new-album" | "import" | "retake" | "move" | "remove" | "remove-album" => {
            change(alloc, next.album, word, rest, files)?
        }
        _ => asked(alloc, word, rest)?,
    };
    for _ in 0..next.times {
        add_one(alloc, input, next, &request)?;
    }
    *next = Next::plain(next.numbered);
    Ok(())
}

/// The request of a change.
fn change(
    alloc: Global,
    album: Option<&str>,
    word: &str,
    rest: &str,
    files: &[File],
) -> Result<Request> {
    let (first, second) = rest.split_once(' ').unwrap_or((rest, ""));
    Ok(match word {
        "new-album" => {
            let body = format!(in alloc; "{{\"name\":\"{rest}\"}}")?;
            to(
                alloc,
                "POST",
                format!(in alloc; "/albums")?,
                Some(body.as_bytes()),
            )?
        }
        "import" => import(alloc, album, find(files, rest)?)?,
        "retake" => {
            let target = format!(in alloc; "/recordings/{first}/audio")?;
            let file = find(files, second)?;
            to(alloc, "PUT", target, Some(file.bytes.as_slice()))?
        }
        "move" => {
            let album = if second == "none" { "null" } else { second };
            let body = format!(in alloc; "{{\"album\":{album}}}")?;
            let target = format!(in alloc; "/recordings/{first}/album")?;
            to(alloc, "PUT", target, Some(body.as_bytes()))?
        }
        "remove" => to(
            alloc,
            "DELETE",
            format!(in alloc; "/recordings/{rest}")?,
            None,
        )?,
        _ => to(alloc, "DELETE", format!(in alloc; "/albums/{rest}")?, None)?,
    })
}

/// The import of a file, into an album or into none.
fn import(alloc: Global, album: Option<&str>, file: &File) -> Result<Request> {
    let target = match album {
        Some(album) => format!(in alloc; "/albums/{album}/recordings")?,
        None => format!(in alloc; "/recordings")?,
    };
    to(alloc, "POST", target, Some(file.bytes.as_slice()))
}

/// A question, or a request by its method, its target and the text of its body.
fn asked(alloc: Global, word: &str, rest: &str) -> Result<Request> {
    let (target, body) = rest.split_once(' ').unwrap_or((rest, ""));
    let target = String::from_str(alloc, target)?;
    match word {
        "ask" => to(alloc, "GET", format!(in alloc; "/recordings/{rest}")?, None),
        "ask-album" => to(alloc, "GET", format!(in alloc; "/albums/{rest}")?, None),
        "post" => to(alloc, "POST", target, Some(body.as_bytes())),
        "put" => to(alloc, "PUT", target, Some(body.as_bytes())),
        "delete" => to(alloc, "DELETE", target, None),
        "get" => to(alloc, "GET", target, None),
        _ => bail!("no line of a case"),
    }
}

/// The request of a method, a target and a body.
fn to(alloc: Global, method: &'static str, target: String, body: Option<&[u8]>) -> Result<Request> {
    let body = match body {
        Some(bytes) => {
            let mut body = Vec::new(alloc);
            body.extend_from_slice(bytes)?;
            Some(body)
        }
        None => None,
    };
    Ok(Request {
        method,
        target,
        body,
    })
}

/// Adds a request once: its head, and its body.
fn add_one(
    alloc: Global,
    input: &mut Vec<u8>,
    next: &mut Next<'_>,
    request: &Request,
) -> Result<()> {
    let (method, target) = (request.method, request.target.as_str());
    add_line(
        input,
        format!(in alloc; "{method} {target} HTTP/1.1")?.as_str(),
    )?;
    add_line(input, "Host: a")?;
    if method != "GET" {
        add_token(alloc, input, next)?;
    }
    if let Some(name) = next.name {
        add_line(input, format!(in alloc; "Recording-Name: {name}")?.as_str())?;
    }
    if let Some(body) = &request.body {
        add_length(alloc, input, body.len())?;
    }
    if next.closing {
        add_line(input, "Connection: close")?;
    }
    add_line(input, "")?;
    if let Some(body) = &request.body {
        input.extend_from_slice(body.as_slice())?;
    }
    Ok(())
}

/// Adds the header line of the token: the one that a line before gives, or the next number.
fn add_token(alloc: Global, input: &mut Vec<u8>, next: &mut Next<'_>) -> Result<()> {
    match next.token {
        Some(token) => add_line(input, format!(in alloc; "Request-Token: {token}")?.as_str()),
        None => {
            next.numbered = next.numbered.checked_add(1).context("no number is left")?;
            let number = next.numbered;
            add_line(
                input,
                format!(in alloc; "Request-Token: {number}")?.as_str(),
            )
        }
    }
}

/// Adds the header line that tells the length of a body.
pub fn add_length(alloc: Global, input: &mut Vec<u8>, length: usize) -> Result<()> {
    add_line(
        input,
        format!(in alloc; "Content-Length: {length}")?.as_str(),
    )
}

/// Adds a line of a head.
pub fn add_line(input: &mut Vec<u8>, line: &str) -> Result<()> {
    input.extend_from_slice(line.as_bytes())?;
    input.extend_from_slice(b"\r\n".as_slice())?;
    Ok(())
}
