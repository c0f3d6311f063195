//! A change that was decided, and for which all memory was taken.
ghost use Rattle.std.specs.Prelude.{◌≡◌, ◌≤◌};
ghost use Rattle.library_model.specs.Replies.{refusal};
ghost use Rattle.library_model.specs.declared.refusals.Refusal.TheVariants.{Keeper, Memory};

use catalogue_rows::Fresh;
use keeper_store::Batch;
use library_model::Reply;

/// A change that waits for its commit: its batch, what is fresh in it, the take that it takes out of
/// the recordings, its reply, and the replies to a keeper that refuses it. Its status is 200 or 201.
#[derive(Debug, Drop)]
pub struct Prepared {
    pub(crate) batch: Batch,
    pub(crate) fresh: Fresh,
    pub(crate) released: Option<u32>,
    pub(crate) reply: Reply,
    pub(crate) keeper_refusal: Reply,
    pub(crate) memory_refusal: Reply,
    ghost of_keeper: { keeper_refusal ≡ refusal Keeper },
    ghost of_memory: { memory_refusal ≡ refusal Memory },
    ghost granted_least: { 200 ≤ reply.status },
    ghost granted_most: { reply.status ≤ 201 },
}

/// What staging a request gives.
#[derive(Debug, Drop)]
pub enum Staged {
    /// The request is refused, with no change.
    Refused(Reply),
    /// The request is accepted, and its change waits for its commit.
    Ready(Prepared),
}
