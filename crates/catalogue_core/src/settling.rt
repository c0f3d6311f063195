//! A decision made ready: its reply kept under the token, and the replies to a keeper that refuses it.
ghost use Rattle.std.specs.Prelude.{◌≡◌, IfOk};
ghost use Rattle.kept_replies.specs.Tokens.{text_of};
ghost use Rattle.library_model.specs.Batches.{kept_row};
ghost use Rattle.catalogue_core.specs.Settling.{IsPreparedOf, IsSettled};

use crate::plans::{Decision, Plan};
use crate::{Prepared, Staged};
use json_bodies::refuse;
use keeper_store::{Batch, Change, ReplyRow, Rows};
use kept_replies::Token;
use lib_base::{Bytes, Memory};
use library_model::{Refusal, Reply};
use std::alloc::Global;

/// What is staged of a decision. It takes the memory that a commit wants beside the rows.
pub(crate) fn settle(
    alloc: Global,
    token: Token,
    mark: [u8; 16],
    decision: Decision,
) -> Result<Staged, Memory>
    ensures { IfOk result (IsSettled (text_of token) mark decision) }
{
    match decision {
        Decision::Refused(reply) => Ok(Staged::Refused(reply)),
        Decision::Planned(plan) => Ok(Staged::Ready(prepare(alloc, token, mark, plan)?)),
    }
}

/// The planned change with its reply kept under the token, last of its batch.
fn prepare(alloc: Global, token: Token, mark: [u8; 16], plan: Plan) -> Result<Prepared, Memory>
    ensures { IfOk result (IsPreparedOf (text_of token) mark plan) }
{
    let Plan {
        mut changes,
        fresh,
        released,
        reply,
    } = plan;
    changes.push(Change::PutReply(reply_row(alloc, token, mark, &reply)?))?;
    // `commit` takes no memory, so both refusals that it may answer are made here
    let keeper_refusal = refuse(alloc, Refusal::Keeper)?;
    let memory_refusal = refuse(alloc, Refusal::Memory)?;
    Ok(Prepared {
        batch: Batch {
            changes: Rows::of(changes),
        },
        fresh,
        released,
        reply,
        keeper_refusal,
        memory_refusal,
    })
}

/// What is kept of a reply.
fn reply_row(alloc: Global, token: Token, mark: [u8; 16], reply: &Reply) -> Result<ReplyRow, Memory>
    ensures { IfOk result (λ row. row ≡ kept_row (text_of token) mark reply.now) }
{
    let body = Bytes::copy(alloc, reply.body.as_slice())?;
    Ok(ReplyRow {
        token: token.into_text(),
        mark,
        status: reply.status,
        body,
    })
}
