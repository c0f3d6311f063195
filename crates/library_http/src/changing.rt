//! Changes: seen, wanted, staged, committed and swept.
ghost use Rattle.std.specs.Prelude.{◌≡◌, ◌≤◌, None, IfOk, IfNone, IfSome};
ghost use Rattle.lib_base.specs.declared.limits.TheConstants.{MOST_WORKERS};
ghost use Rattle.http_inbox.specs.Heads.{IsHeadingOf};
ghost use Rattle.kept_replies.specs.Tokens.{text_of};
ghost use Rattle.library_model.specs.Asked as asked;
ghost use Rattle.library_model.specs.Asked.{change};
ghost use Rattle.library_model.specs.Machine.{Decides, kept_under, stays};
ghost use Rattle.library_model.specs.Stands.{BringsWithin, IsWithinLimit};
ghost use Rattle.library_model.specs.State.{State};
ghost use Rattle.http_asking.specs.Asked.{HasHeading};
ghost use Rattle.http_model.specs.Asking.{name_values, wanted_at};
ghost use Rattle.http_model.specs.Requests.{Framed};
ghost use Rattle.catalogue_core.specs.Committing.{Fits};
ghost use Rattle.catalogue_core.specs.Kept.{IsFresh, Keeps};
ghost use Rattle.catalogue_core.specs.Requests.{asked_by};
ghost use Rattle.library_http.specs.Acts.{Acts};
ghost use Rattle.library_http.specs.Turns.{Settled, reply_given};
ghost use Rattle.library_http.specs.World.{KeepsFaults, world};

use catalogue_core::{Library, Prepared, Request, Seen, Staged, Token, commit, stage, sweep};
use http_asking::{Wanted, wanted};
use http_inbox::Heading;
use http_routes::Resource;
use json_bodies::refuse;
use keeper_store::{Keeper, Vault};
use lib_base::{Bytes, Memory, Steps};
use library_model::{Refusal, Reply};
use measure_pool::OpenGate;
use std::alloc::Global;
use std::sync::ledger::Ledger;
use std::thread::Threads;

/// Answers a change that is asked under that token with that mark, at what its target names. None is
/// want of memory, which leaves the state.
pub(crate) fn change<R: Threads + Sync, D: Keeper, V: Vault, L: Ledger>(
    rt: &R,
    alloc: Global,
    library: &mut Library,
    keeper: &mut D,
    vault: &mut V,
    bytes: &[u8],
    heading: &Heading,
    body: Bytes,
    token: Token,
    mark: [u8; 16],
    resource: Resource,
    workers: u32,
    steps: &mut Steps<L>,
) -> Option<Reply>
    requires heading { HasHeading bytes.now heading.now }
    requires within { IsWithinLimit body }
    requires some { 1 ≤ workers }
    requires most { workers ≤ MOST_WORKERS }
    ensures acts { (s : State) → Keeps library.old s → (q : Framed) → IsHeadingOf bytes.now heading.now q.head → body ≡ q.body
        → Acts s (change (text_of token) mark (wanted_at resource (name_values q.head) q.body)) (reply_given result)
        (world library.old (D.shown keeper.old) (V.shown vault.old))
        (world library.new (D.shown keeper.new) (V.shown vault.new)) }
    ensures later { KeepsFaults (world library.old (D.shown keeper.old) (V.shown vault.old))
        (world library.new (D.shown keeper.new) (V.shown vault.new)) }
{
    match kept_reply(alloc, library, &token, &mark) {
        Ok(None) => want(
            rt, alloc, library, keeper, vault, bytes, heading, body, token, mark, resource,
            workers, steps,
        ),
        Ok(Some(reply)) => Some(reply),
        Err(Memory) => None,
    }
}

/// The reply to a token that is kept, which is that of its request or a refusal of another; None where
/// the token is fresh.
fn kept_reply(
    alloc: Global,
    library: &Library,
    token: &Token,
    mark: &[u8; 16],
) -> Result<Option<Reply>, Memory>
    ensures fresh { IfOk result (λ reply. IfNone reply (IsFresh library.now (text_of token.now))) }
    ensures unkept { (s : State) → Keeps library.now s → IfOk result (λ reply. IfNone reply (kept_under (text_of token.now) s.replies ≡ None)) }
    ensures kept { (s : State) → Keeps library.now s → (wanted : asked.Wanted)
        → IfOk result (λ found. IfSome found (λ reply. Decides s (change (text_of token.now) mark.now wanted) (stays reply))) }
{
    match library.seen(token, mark) {
        Seen::Fresh => Ok(None),
        Seen::Kept(reply) => Ok(Some(copy(alloc, reply)?)),
        Seen::Other => Ok(Some(refuse(alloc, Refusal::TokenUsed)?)),
    }
}

fn copy(alloc: Global, reply: &Reply) -> Result<Reply, Memory>
    ensures { IfOk result (λ copy. copy ≡ reply.now) }
{
    Ok(Reply {
        status: reply.status,
        kind: reply.kind,
        body: Bytes::copy(alloc, reply.body.as_slice())?,
    })
}

/// Answers a change of a fresh token.
fn want<R: Threads + Sync, D: Keeper, V: Vault, L: Ledger>(
    rt: &R,
    alloc: Global,
    library: &mut Library,
    keeper: &mut D,
    vault: &mut V,
    bytes: &[u8],
    heading: &Heading,
    body: Bytes,
    token: Token,
    mark: [u8; 16],
    resource: Resource,
    workers: u32,
    steps: &mut Steps<L>,
) -> Option<Reply>
    requires fresh { IsFresh library.old (text_of token) }
    requires heading { HasHeading bytes.now heading.now }
    requires within { IsWithinLimit body }
    requires some { 1 ≤ workers }
    requires most { workers ≤ MOST_WORKERS }
    ensures acts { (s : State) → Keeps library.old s → kept_under (text_of token) s.replies ≡ None
        → (q : Framed) → IsHeadingOf bytes.now heading.now q.head → body ≡ q.body
        → Acts s (change (text_of token) mark (wanted_at resource (name_values q.head) q.body)) (reply_given result)
        (world library.old (D.shown keeper.old) (V.shown vault.old))
        (world library.new (D.shown keeper.new) (V.shown vault.new)) }
    ensures later { KeepsFaults (world library.old (D.shown keeper.old) (V.shown vault.old))
        (world library.new (D.shown keeper.new) (V.shown vault.new)) }
{
    match wanted(alloc, resource, bytes, heading, body) {
        Ok(Wanted::Command(command)) => {
            let request = Request {
                token,
                mark,
                command,
            };
            make(rt, library, keeper, vault, request, workers, steps)
        }
        Ok(Wanted::Malformed(reply)) => Some(reply),
        Err(Memory) => None,
    }
}

/// Makes a request of a fresh token: it is staged, committed and swept.
fn make<R: Threads + Sync, D: Keeper, V: Vault, L: Ledger>(
    rt: &R,
    library: &mut Library,
    keeper: &mut D,
    vault: &mut V,
    request: Request,
    workers: u32,
    steps: &mut Steps<L>,
) -> Option<Reply>
    requires fresh { IsFresh library.old (text_of request.token) }
    requires within { BringsWithin request.command }
    requires some { 1 ≤ workers }
    requires most { workers ≤ MOST_WORKERS }
    ensures acts { (s : State) → Keeps library.old s → Acts s (asked_by request) (reply_given result)
        (world library.old (D.shown keeper.old) (V.shown vault.old))
        (world library.new (D.shown keeper.new) (V.shown vault.new)) }
    ensures later { KeepsFaults (world library.old (D.shown keeper.old) (V.shown vault.old))
        (world library.new (D.shown keeper.new) (V.shown vault.new)) }
{
    match stage(rt, library, request, vault, workers, &OpenGate, steps) {
        Ok(Staged::Refused(reply)) => Some(reply),
        Ok(Staged::Ready(ready)) => Some(settle(library, keeper, vault, ready)),
        Err(Memory) => None,
    }
}

/// Commits a prepared change, and sweeps what it released.
fn settle<D: Keeper, V: Vault>(
    library: &mut Library,
    keeper: &mut D,
    vault: &mut V,
    ready: Prepared,
) -> Reply
    requires { Fits library.old ready }
    ensures { Settled ready library.old library.new (D.shown keeper.old) (D.shown keeper.new)
        (V.shown vault.old) (V.shown vault.new) result }
{
    let reply = commit(library, ready, keeper);
    sweep(library, vault);
    reply
}
