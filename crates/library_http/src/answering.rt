//! One request, its reply, and the writing of it.
ghost use Rattle.std.specs.Prelude.{◌≡◌, ◌≤◌};
ghost use Rattle.lib_base.specs.Writes.{WritesAll};
ghost use Rattle.lib_base.specs.declared.limits.TheConstants.{MOST_WORKERS};
ghost use Rattle.library_model.specs.Stands.{IsWithinLimit};
ghost use Rattle.library_model.specs.State.{State};
ghost use Rattle.http_routes.specs.Routes.{methods_if};
ghost use Rattle.http_inbox.specs.Heads.{IsHeadingOf};
ghost use Rattle.http_asking.specs.Asked.{HasHeading};
ghost use Rattle.http_model.specs.Asking.{asked_of};
ghost use Rattle.http_model.specs.Exchanges.{allows_in};
ghost use Rattle.http_model.specs.Requests.{Framed};
ghost use Rattle.http_model.specs.Spelling.{spelled};
ghost use Rattle.catalogue_core.specs.Kept.{Keeps};
ghost use Rattle.library_http.specs.Acts.{Acts};
ghost use Rattle.library_http.specs.Turns.{allowed_in, reply_given};
ghost use Rattle.library_http.specs.World.{KeepsFaults, world};

use crate::changing::change;
use catalogue_core::{Library, ask};
use http_asking::{Asking, ask_for};
use http_inbox::Heading;
use http_replies::{write_memory, write_reply};
use http_routes::{Paths, Route};
use keeper_store::{Keeper, Vault};
use lib_base::{Bytes, Memory, Outside, Sink, Steps};
use library_model::Reply;
use std::alloc::Global;
use std::sync::ledger::Ledger;
use std::thread::Threads;

/// What a request was answered.
#[derive(Drop)]
pub(crate) struct Given {
    /// None is want of memory.
    pub reply: Option<Reply>,
    /// The route whose methods the reply names.
    pub allows: Option<Route>,
}

/// Answers a request whose head begins the bytes and lies as the heading says, and which has that
/// body. Want of memory leaves the state.
pub(crate) fn answer<R: Threads + Sync, D: Keeper, V: Vault, L: Ledger>(
    rt: &R,
    alloc: Global,
    paths: &Paths,
    library: &mut Library,
    keeper: &mut D,
    vault: &mut V,
    bytes: &[u8],
    heading: &Heading,
    body: Bytes,
    workers: u32,
    steps: &mut Steps<L>,
) -> Given
    requires heading { HasHeading bytes.now heading.now }
    requires within { IsWithinLimit body }
    requires some { 1 ≤ workers }
    requires most { workers ≤ MOST_WORKERS }
    ensures acts { (s : State) → Keeps library.old s → (q : Framed) → IsHeadingOf bytes.now heading.now q.head → body ≡ q.body
        → Acts s (asked_of q) (reply_given result.reply)
        (world library.old (D.shown keeper.old) (V.shown vault.old))
        (world library.new (D.shown keeper.new) (V.shown vault.new)) }
    ensures allows { (q : Framed) → IsHeadingOf bytes.now heading.now q.head → body ≡ q.body
        → allowed_in result.reply (methods_if result.allows) ≡ allows_in q (reply_given result.reply) }
    ensures later { KeepsFaults (world library.old (D.shown keeper.old) (V.shown vault.old))
        (world library.new (D.shown keeper.new) (V.shown vault.new)) }
{
    match ask_for(alloc, paths, bytes, heading, body.as_slice()) {
        Ok(Asking::Refused { reply, allows }) => Given {
            reply: Some(reply),
            allows,
        },
        Ok(Asking::Question(question)) => Given {
            reply: ask(library, &question, vault).ok(),
            allows: None,
        },
        Ok(
            Asking::Change {
                token,
                mark,
                resource,
            },
        ) => Given {
            reply: change(
                rt, alloc, library, keeper, vault, bytes, heading, body, token, mark, resource,
                workers, steps,
            ),
            allows: None,
        },
        Err(Memory) => Given {
            reply: None,
            allows: None,
        },
    }
}

/// Writes what was replied, after which the connection closes or not. For want of memory it writes a
/// fixed text, which takes none.
pub(crate) fn write_given<K: Sink>(
    alloc: Global,
    sink: &mut K,
    given: &Given,
    closes: bool,
) -> Result<(), Outside>
    ensures { WritesAll (K.shown sink.old) (K.shown sink.new)
        (spelled closes (allowed_in given.now.reply (methods_if given.now.allows)) (reply_given given.now.reply)) result }
{
    match &given.reply {
        Some(reply) => write_reply(alloc, sink, reply, given.allows, closes),
        None => write_memory(sink, closes),
    }
}
