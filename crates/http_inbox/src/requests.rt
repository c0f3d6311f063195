//! The next request, out of an inbox and a source.
ghost use Rattle.std.specs.Prelude.{◌≡◌};
ghost use Rattle.httparse.specs.Grammar.{RequestHead};
ghost use Rattle.http_model.specs.Requests.{extent, long};
ghost use Rattle.http_inbox.specs.Heads.{IsHeadingOf};
ghost use Rattle.http_inbox.specs.Nexts.{ReadsNext};

use crate::bodies::{BodyRead, read_body};
use crate::extents::{BodySize, body_size};
use crate::heads::Heading;
use crate::inbox::{HeadRead, Inbox};
use http_model::FramingRefusal;
use lib_base::{Bytes, Source};
use std::alloc::Global;

/// A request: where the parts of its head lie in the inbox, and its body.
#[derive(Drop)]
pub struct Request {
    pub heading: Heading,
    pub body: Bytes,
}

/// What is found where the next request is looked for.
#[derive(Drop)]
pub enum Next {
    /// No byte is there, and the source is at its end.
    Ended,
    /// A request begins the bytes.
    Framed(Request),
    /// No request begins the bytes, however they go on, or the source is at its end and none begins
    /// them as they are. `text` of the cause is the reply, after which the connection closes.
    Refused(FramingRefusal),
    /// A read failed.
    Fault,
    /// The memory for the body is not to be had. All that was read is in the inbox.
    Memory,
}

/// Reads the next request, and no byte behind its body but those that came with its head. The head
/// stays in the inbox until `pass` lets the request go.
pub fn next_request<S: Source>(alloc: Global, inbox: &mut Inbox, source: &mut S) -> Next
    ensures { ReadsNext (S.shown source.old) (S.shown source.new) inbox.old inbox.new result }
{
    match inbox.read_head(source) {
        HeadRead::Ended => Next::Ended,
        HeadRead::Head(heading) => follow(alloc, inbox.bytes(), source, heading),
        HeadRead::NoHead => Next::Refused(FramingRefusal::Frame),
        HeadRead::Fault => Next::Fault,
    }
}

/// Reads what follows the head that begins what is held.
fn follow<S: Source>(alloc: Global, held: &[u8], source: &mut S, heading: Heading) -> Next
    requires { (head : RequestHead) × IsHeadingOf held.now heading head }
    ensures { ReadsNext (S.shown source.old) (S.shown source.new) held.now held.now result }
{
    match body_size(held, &heading) {
        BodySize::Long(size) => follow_body(alloc, held, source, heading, size),
        BodySize::Refused(cause) => Next::Refused(cause),
    }
}

/// Reads the body of that size that follows the head.
fn follow_body<S: Source>(
    alloc: Global,
    held: &[u8],
    source: &mut S,
    heading: Heading,
    size: usize,
) -> Next
    requires { (head : RequestHead) × IsHeadingOf held.now heading head × (extent head ≡ long size) }
    ensures { ReadsNext (S.shown source.old) (S.shown source.new) held.now held.now result }
{
    match read_body(alloc, held.split_at(heading.len).1, source, size) {
        BodyRead::Whole(body) => Next::Framed(Request { heading, body }),
        BodyRead::Cut => Next::Refused(FramingRefusal::Frame),
        BodyRead::Fault => Next::Fault,
        BodyRead::Memory => Next::Memory,
    }
}
