//! The lines of a reply up to its body.
ghost use Rattle.std.specs.Prelude.{◌≡◌, IfOk, string_bytes};
ghost use Rattle.http_model.specs.Spelling as spelling;
ghost use Rattle.http_model.specs.Spelling.{allowing, spelled_head};
ghost use Rattle.http_routes.specs.Routes.{methods_if, methods_of};
ghost use Rattle.http_replies.specs.Heads.{head_front, head_tail};

use http_routes::Route;
use lib_base::Memory;
use library_model::{BodyKind, Reply};
use std::alloc::Global;

/// The lines of a reply up to its body, after which the connection closes or not. One of them names
/// the methods of that route, where there is one.
pub(crate) fn head(
    alloc: Global,
    reply: &Reply,
    allows: Option<Route>,
    closes: bool,
) -> Result<String, Memory>
    ensures { IfOk result (λ text. string_bytes text ≡ spelled_head closes (methods_if allows) reply.now) }
{
    let mut text = front(alloc, reply)?;
    text.push_str(allow_line(alloc, allows)?.as_str())?;
    text.push_str(tail(alloc, reply, closes)?.as_str())?;
    Ok(text)
}

/// The lines that come before those of the methods and of the body's length.
fn front(alloc: Global, reply: &Reply) -> Result<String, Memory>
    ensures { IfOk result (λ text. string_bytes text ≡ head_front reply.now) }
{
    let text = format!(in alloc;
        "HTTP/1.1 {} {}\r\nContent-Type: {}\r\n",
        reply.status,
        reason(reply.status),
        media_type(reply.kind)
    )?;
    Ok(text)
}

/// The line that names the methods of that route, where there is one.
fn allow_line(alloc: Global, allows: Option<Route>) -> Result<String, Memory>
    ensures { IfOk result (λ text. string_bytes text ≡ allowing (methods_if allows)) }
{
    match allows {
        Some(route) => named(alloc, route),
        None => Ok(String::new(alloc)),
    }
}

/// The line that names the methods of that route.
fn named(alloc: Global, route: Route) -> Result<String, Memory>
    ensures { IfOk result (λ text. string_bytes text ≡ allowing (methods_of route)) }
{
    let text = format!(in alloc; "Allow: {}\r\n", route.allowed())?;
    Ok(text)
}

/// The lines from the length of the body on.
fn tail(alloc: Global, reply: &Reply, closes: bool) -> Result<String, Memory>
    ensures { IfOk result (λ text. string_bytes text ≡ head_tail closes reply.now) }
{
    let length = reply.body.len();
    let text = format!(in alloc; "Content-Length: {}\r\n{}\r\n", length, closing(closes))?;
    Ok(text)
}

/// The reason phrase of a status (RFC 9110 section 15).
fn reason(status: u16) -> &'static str
    ensures { result.now ≡ spelling.reason status }
{
    match status {
        200 => "OK",
        201 => "Created",
        400 => "Bad Request",
        404 => "Not Found",
        405 => "Method Not Allowed",
        409 => "Conflict",
        411 => "Length Required",
        413 => "Content Too Large",
        422 => "Unprocessable Content",
        500 => "Internal Server Error",
        502 => "Bad Gateway",
        503 => "Service Unavailable",
        504 => "Gateway Timeout",
        _ => "",
    }
}

/// The media type of a body.
fn media_type(kind: BodyKind) -> &'static str
    ensures { result.now ≡ spelling.media_type kind }
{
    match kind {
        BodyKind::Json => "application/json",
        BodyKind::Csv => "text/csv",
        BodyKind::Wave => "audio/wav",
        BodyKind::Flac => "audio/flac",
    }
}

/// The header line of a reply after which the connection closes.
fn closing(closes: bool) -> &'static str
    ensures { result.now ≡ spelling.closing closes }
{
    if closes { "Connection: close\r\n" } else { "" }
}
