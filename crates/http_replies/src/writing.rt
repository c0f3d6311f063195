//! Replies, written.
ghost use Rattle.std.specs.Prelude.{◌≡◌, ◌++◌, [], true, false};
ghost use Rattle.lib_base.specs.Writes.{WritesAll};
ghost use Rattle.library_model.specs.Replies.{refusal};
ghost use Rattle.library_model.specs.declared.refusals.Refusal.TheVariants as cause;
ghost use Rattle.http_routes.specs.Routes.{methods_if};
ghost use Rattle.http_model.specs.Spelling.{spelled};

use crate::heads::head;
use http_routes::Route;
use lib_base::{Outside, Sink, write_all};
use library_model::Reply;
use std::alloc::Global;

/// The reply to want of memory.
const MEMORY_TEXT: &[u8] =
    b"HTTP/1.1 503 Service Unavailable\r\nContent-Type: application/json\r\nContent-Length: 18\r\n\r\n{\"error\":\"memory\"}";

/// The same, after which the connection closes.
const CLOSING_MEMORY_TEXT: &[u8] =
    b"HTTP/1.1 503 Service Unavailable\r\nContent-Type: application/json\r\nContent-Length: 18\r\nConnection: close\r\n\r\n{\"error\":\"memory\"}";

/// Writes a reply, after which the connection closes or not. It names the methods of that route,
/// where there is one: so does a reply of 405 (RFC 9110 section 15.5.6). Only its lines take memory;
/// the body is written from where it lies. An error leaves a part of its bytes written, from the
/// front.
pub fn write_reply<K: Sink>(
    alloc: Global,
    sink: &mut K,
    reply: &Reply,
    allows: Option<Route>,
    closes: bool,
) -> Result<(), Outside>
    ensures { WritesAll (K.shown sink.old) (K.shown sink.new) (spelled closes (methods_if allows) reply.now) result }
{
    let lines = head(alloc, reply, allows, closes)?;
    write_parts(sink, lines.as_bytes(), reply.body.as_slice())
}

/// Writes the reply to want of memory, after which the connection closes or not. It takes no memory.
pub fn write_memory<K: Sink>(sink: &mut K, closes: bool) -> Result<(), Outside>
    ensures { WritesAll (K.shown sink.old) (K.shown sink.new) (spelled closes [] (refusal cause.Memory)) result }
{
    write_all(sink, memory_text(closes))
}

/// Writes two parts, one after the other.
fn write_parts<K: Sink>(sink: &mut K, first: &[u8], second: &[u8]) -> Result<(), Outside>
    ensures { WritesAll (K.shown sink.old) (K.shown sink.new) (first.now ++ second.now) result }
{
    match write_all(sink, first) {
        Ok(()) => write_all(sink, second),
        Err(error) => Err(error),
    }
}

/// The bytes of the reply to want of memory.
fn memory_text(closes: bool) -> &'static [u8]
    ensures { result.now ≡ spelled closes [] (refusal cause.Memory) }
{
    if closes {
        closing_text()
    } else {
        staying_text()
    }
}

/// Those after which the connection closes.
fn closing_text() -> &'static [u8]
    ensures { result.now ≡ spelled true [] (refusal cause.Memory) }
{
    CLOSING_MEMORY_TEXT
}

/// Those after which it stays.
fn staying_text() -> &'static [u8]
    ensures { result.now ≡ spelled false [] (refusal cause.Memory) }
{
    MEMORY_TEXT
}
