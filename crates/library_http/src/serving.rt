//! A session: requests read, answered and replied to, one after another, and its end.
ghost use Rattle.std.specs.Prelude.{◌≡◌, ◌≢◌, ◌≤◌, ◌<◌, ℕ, []};
ghost use Rattle.httparse.specs.Grammar.{RequestHead};
ghost use Rattle.lib_base.specs.Faults.{CountsFault};
ghost use Rattle.lib_base.specs.declared.limits.TheConstants.{MOST_WORKERS};
ghost use Rattle.library_model.specs.Stands.{IsWithinLimit};
ghost use Rattle.library_model.specs.State.{State};
ghost use Rattle.http_inbox.specs.Heads.{IsHeadingOf};
ghost use Rattle.http_inbox.specs.Nexts.{behind, framed};
ghost use Rattle.http_asking.specs.Asked.{HasHeading};
ghost use Rattle.catalogue_core.specs.Kept.{Keeps};
ghost use Rattle.library_http.specs.Framings.{IsFramed};
ghost use Rattle.library_http.specs.Sessions.{Session, CountsFaults};
ghost use Rattle.library_http.specs.Turns as turns;
ghost use Rattle.library_http.specs.Turns.{ClosesAs, FindsAtLimit, RefusesBy, TakesFinding, TurnDoes, TurnFinds, TurnsOn};
ghost use Rattle.library_http.specs.World.{KeepsFaults, world};

use crate::answering::{answer, write_given};
use catalogue_core::Library;
use http_inbox::{Inbox, Next, Request, next_request};
use http_model::FramingRefusal;
use http_routes::Paths;
use keeper_store::{Keeper, Vault};
use lib_base::{Failed, Outside, Sink, Source, Steps, write_all};
use std::alloc::Global;
use std::marker::Brand;
use std::sync::ledger::{Blank, Ledger};
use std::thread::Threads;

/// How a session ended.
#[derive(Clone, Copy, Debug, PartialEq, Eq)]
pub enum How {
    /// The source was read to its end, or a request asked to close, and each request was answered.
    Ended,
    /// What can't be framed was refused.
    Unframeable,
    /// As many requests were answered as a session may, and a byte more was there.
    Turns,
    /// A read failed. The requests in the bytes that were read were answered.
    SourceFault,
    /// A write failed.
    SinkFault,
    /// Want of memory.
    Memory,
}

/// How a session ended, and how many requests it answered whole.
#[derive(Clone, Copy, Debug, PartialEq, Eq)]
pub struct SessionEnd {
    pub how: How,
    pub answered: u32,
}

/// The end of a session that found no memory to read into.
const UNREAD: SessionEnd = SessionEnd {
    how: How::Memory,
    answered: 0,
};

/// What one turn of serving does.
#[derive(Clone, Copy, Debug)]
enum Turn {
    /// A request was answered whole.
    Answered,
    /// A request was answered whole, and asked to close.
    Closed,
    /// Serving ends so.
    Stopped(How),
}

/// Answers the requests of a source in order, as they come, and writes their replies to the sink: at
/// most `requests` of them. So many workers, 1 to 64, measure each sound.
///
/// It reads no byte behind a body but those that came with its head, and none behind a request that
/// closes. Want of memory in a request is its reply, 503, and the session goes on; it ends the session
/// where the bytes of a head, a body or a reply find no room.
pub fn session<R: Threads + Sync, S: Source, K: Sink, D: Keeper, V: Vault>(
    rt: &R,
    alloc: Global,
    library: &mut Library,
    keeper: &mut D,
    vault: &mut V,
    source: &mut S,
    sink: &mut K,
    workers: u32,
    requests: u32,
) -> SessionEnd
    requires some { 1 ≤ workers }
    requires most { workers ≤ MOST_WORKERS }
    ensures session { (start : State) → Keeps library.old start → Session requests start result.how result.answered
        (S.shown source.old) (S.shown source.new) (K.shown sink.old) (K.shown sink.new)
        (world library.old (D.shown keeper.old) (V.shown vault.old))
        (world library.new (D.shown keeper.new) (V.shown vault.new)) }
    ensures framed { IsFramed result.how requests result.answered (S.shown source.old) (S.shown source.new) }
    ensures faults { CountsFaults result.how (S.shown source.old) (S.shown source.new) (K.shown sink.old) (K.shown sink.new)
        (world library.old (D.shown keeper.old) (V.shown vault.old))
        (world library.new (D.shown keeper.new) (V.shown vault.new)) }
    ensures few { result.answered ≤ requests }
{
    let Ok(paths) = Paths::new(alloc) else {
        return UNREAD;
    };
    let Ok(mut inbox) = Inbox::new(alloc) else {
        return UNREAD;
    };
    serve::<R, S, K, D, V, Brand>(
        rt,
        alloc,
        &paths,
        library,
        keeper,
        vault,
        &mut inbox,
        source,
        sink,
        workers,
        requests,
        Blank::new(1),
    )
}

/// Answers requests, one after another. Its counter of steps is of the blank's ledger.
fn serve<R: Threads + Sync, S: Source, K: Sink, D: Keeper, V: Vault, L: Ledger>(
    rt: &R,
    alloc: Global,
    paths: &Paths,
    library: &mut Library,
    keeper: &mut D,
    vault: &mut V,
    inbox: &mut Inbox,
    source: &mut S,
    sink: &mut K,
    workers: u32,
    requests: u32,
    blank: Blank,
) -> SessionEnd
    requires empty { inbox.old ≡ [] }
    requires some { 1 ≤ workers }
    requires most { workers ≤ MOST_WORKERS }
    requires name { blank.name ≡ L.name }
    requires parts { blank.parts ≡ L.parts }
    requires share { 0 < blank.parts }
    ensures session { (start : State) → Keeps library.old start → Session requests start result.how result.answered
        (S.shown source.old) (S.shown source.new) (K.shown sink.old) (K.shown sink.new)
        (world library.old (D.shown keeper.old) (V.shown vault.old))
        (world library.new (D.shown keeper.new) (V.shown vault.new)) }
    ensures framed { IsFramed result.how requests result.answered (S.shown source.old) (S.shown source.new) }
    ensures faults { CountsFaults result.how (S.shown source.old) (S.shown source.new) (K.shown sink.old) (K.shown sink.new)
        (world library.old (D.shown keeper.old) (V.shown vault.old))
        (world library.new (D.shown keeper.new) (V.shown vault.new)) }
    ensures few { result.answered ≤ requests }
{
    let mut steps: Steps<L> = Steps::new(blank);
    let mut answered = 0u32;
    'requests: while answered < requests {
        match serve_one(
            rt, alloc, paths, library, keeper, vault, inbox, source, sink, workers, &mut steps,
        ) {
            Turn::Answered => answered += 1,
            Turn::Closed => {
                return SessionEnd {
                    how: How::Ended,
                    answered: answered + 1,
                };
            }
            Turn::Stopped(how) => return SessionEnd { how, answered },
        }
    }
    SessionEnd {
        how: end_at_limit(inbox, source),
        answered,
    }
}

/// Ends a session that answered as many requests as it may: it looks for one byte more.
fn end_at_limit<S: Source>(inbox: &Inbox, source: &mut S) -> How
    ensures takes { TakesFinding inbox.now (S.shown source.old) (S.shown source.new) (FindsAtLimit result) }
    ensures cause { CountsFault (result ≡ How.SourceFault) (S.shown source.old).faults (S.shown source.new).faults }
    ensures sink { result ≢ How.SinkFault }
{
    if !inbox.bytes().is_empty() {
        return How::Turns;
    }
    match source.read(&mut [0u8; 1]) {
        Ok(0) => How::Ended,
        Ok(_) => How::Turns,
        Err(Failed) => How::SourceFault,
    }
}

/// Reads the next request, answers it and writes its reply.
fn serve_one<R: Threads + Sync, S: Source, K: Sink, D: Keeper, V: Vault, L: Ledger>(
    rt: &R,
    alloc: Global,
    paths: &Paths,
    library: &mut Library,
    keeper: &mut D,
    vault: &mut V,
    inbox: &mut Inbox,
    source: &mut S,
    sink: &mut K,
    workers: u32,
    steps: &mut Steps<L>,
) -> Turn
    requires some { 1 ≤ workers }
    requires most { workers ≤ MOST_WORKERS }
    ensures turn { (s : State) → Keeps library.old s → TurnDoes result s inbox.old inbox.new
        (S.shown source.old) (S.shown source.new) (K.shown sink.old) (K.shown sink.new)
        (world library.old (D.shown keeper.old) (V.shown vault.old))
        (world library.new (D.shown keeper.new) (V.shown vault.new)) }
    ensures finds { TurnFinds result inbox.old inbox.new (S.shown source.old) (S.shown source.new) }
    ensures source { CountsFault (result ≡ Turn.Stopped How.SourceFault) (S.shown source.old).faults (S.shown source.new).faults }
    ensures sink { CountsFault (result ≡ Turn.Stopped How.SinkFault) (K.shown sink.old).faults (K.shown sink.new).faults }
    ensures later { KeepsFaults (world library.old (D.shown keeper.old) (V.shown vault.old))
        (world library.new (D.shown keeper.new) (V.shown vault.new)) }
{
    match next_request(alloc, inbox, source) {
        Next::Framed(request) => serve_request(
            rt, alloc, paths, library, keeper, vault, inbox, request, sink, workers, steps,
        ),
        Next::Refused(cause) => Turn::Stopped(end_by(cause, sink)),
        Next::Ended => Turn::Stopped(How::Ended),
        Next::Fault => Turn::Stopped(How::SourceFault),
        Next::Memory => Turn::Stopped(How::Memory),
    }
}

/// Answers the request that begins what is held, and writes its reply. What is held then follows it.
fn serve_request<R: Threads + Sync, K: Sink, D: Keeper, V: Vault, L: Ledger>(
    rt: &R,
    alloc: Global,
    paths: &Paths,
    library: &mut Library,
    keeper: &mut D,
    vault: &mut V,
    inbox: &mut Inbox,
    request: Request,
    sink: &mut K,
    workers: u32,
    steps: &mut Steps<L>,
) -> Turn
    requires heading { HasHeading inbox.old request.heading }
    requires within { IsWithinLimit request.body }
    requires some { 1 ≤ workers }
    requires most { workers ≤ MOST_WORKERS }
    ensures turn { (s : State) → Keeps library.old s → (head : RequestHead) → IsHeadingOf inbox.old request.heading head
        → TurnsOn result s (framed head request) (K.shown sink.old) (K.shown sink.new)
        (world library.old (D.shown keeper.old) (V.shown vault.old))
        (world library.new (D.shown keeper.new) (V.shown vault.new)) }
    ensures shuts { (head : RequestHead) → IsHeadingOf inbox.old request.heading head → ClosesAs result head }
    ensures passed { inbox.new ≡ behind inbox.old request }
    ensures source { result ≢ Turn.Stopped How.SourceFault }
    ensures sink { CountsFault (result ≡ Turn.Stopped How.SinkFault) (K.shown sink.old).faults (K.shown sink.new).faults }
    ensures later { KeepsFaults (world library.old (D.shown keeper.old) (V.shown vault.old))
        (world library.new (D.shown keeper.new) (V.shown vault.new)) }
{
    let Request { heading, body } = request;
    let size = body.len();
    let given = answer(
        rt,
        alloc,
        paths,
        library,
        keeper,
        vault,
        inbox.bytes(),
        &heading,
        body,
        workers,
        steps,
    );
    inbox.pass(&heading, size);
    let written = write_given(alloc, sink, &given, heading.closes);
    turn_of(heading.closes, written)
}

/// The turn whose reply was written, or written in part, after which the session closes or not.
fn turn_of(closes: bool, written: Result<(), Outside>) -> Turn
    ensures { result ≡ turns.turn_of closes written }
{
    match written {
        Ok(()) => if closes { Turn::Closed } else { Turn::Answered },
        Err(Outside::Failed) => Turn::Stopped(How::SinkFault),
        Err(Outside::Memory) => Turn::Stopped(How::Memory),
    }
}

/// Ends a session by the refusal of what can't be framed.
fn end_by<K: Sink>(cause: FramingRefusal, sink: &mut K) -> How
    ensures refuses { RefusesBy result cause (K.shown sink.old) (K.shown sink.new) }
    ensures source { result ≢ How.SourceFault }
    ensures faults { CountsFault (result ≡ How.SinkFault) (K.shown sink.old).faults (K.shown sink.new).faults }
{
    match write_all(sink, cause.text()) {
        Ok(()) => How::Unframeable,
        Err(Outside::Failed) => How::SinkFault,
        Err(Outside::Memory) => How::Memory,
    }
}
