//! Replies kept under tokens.
ghost use Rattle.std.specs.Prelude.{◌≡◌, map, IfOk};
ghost use Rattle.keeper_store.specs.Puts.{Ascends, Ascends-prop};
ghost use Rattle.kept_replies.specs.Rows.{kept_of};
ghost use Rattle.kept_replies.specs.Orders.{kept_less};

use crate::replies::{find_reply, see};
use crate::{KeptReply, Seen, Token};
use keeper_store::{ReplyRow, put_row};
use lib_base::Memory;
use std::alloc::Global;

/// Replies kept under tokens, of which each has one at most. They ascend by the bytes of their
/// tokens.
#[derive(Debug, Drop)]
pub struct KeptReplies {
    replies: Vec<KeptReply>,
    ghost ascend: { Ascends kept_less replies.items } by { Ascends-prop kept_less replies.items },
}

impl KeptReplies {
    ghost use Rattle.std.specs.Prelude.{◌+◌, ℕ, List, IfOk, OnOk};
    ghost use Rattle.std.specs.List.{find};
    ghost use Rattle.std.specs.Str.{bytes_eq};
    ghost use Rattle.keeper_store.specs.Puts.{put, reply_less};
    ghost use Rattle.keeper_store.specs.declared.row_types.ReplyRow.{ReplyRow};
    ghost use Rattle.kept_replies.specs.Holding.{Holds, HasRoom, IsFresh};
    ghost use Rattle.kept_replies.specs.Seeing.{IfFresh, SeenAs};
    ghost use Rattle.kept_replies.specs.Tokens.{text_of};

    /// The replies of rows that ascend by their tokens.
    pub fn of(alloc: Global, rows: Vec<ReplyRow>) -> Result<KeptReplies, Memory>
        requires { Ascends reply_less rows.items }
        ensures { IfOk result (λ kept. Holds kept rows.items) }
    {
        let replies = keep_all(alloc, rows)?;
        Ok(KeptReplies { replies })
    }

    /// Makes room for so many replies more.
    pub fn reserve(&mut self, more: usize) -> Result<(), Memory>
        ensures held { (rows : List ReplyRow) → Holds self.old rows → Holds self.new rows }
        ensures kept { (more : ℕ) → HasRoom self.old more → HasRoom self.new more }
        ensures room { OnOk result (HasRoom self.new more) }
    {
        self.replies.reserve(more)?;
        Ok(())
    }

    /// Keeps a reply, over one under its token, in the room that there is.
    pub fn put(&mut self, row: ReplyRow)
        requires { HasRoom self.old 1 }
        ensures held { (rows : List ReplyRow) → Holds self.old rows → Holds self.new (put reply_less row rows) }
        ensures room { (more : ℕ) → HasRoom self.old (more + 1) → HasRoom self.new more }
    {
        put_row(&mut self.replies, KeptReply::of(row));
    }

    /// What a request with this token and this mark sees, found by halving over the tokens.
    pub fn seen(&self, token: &Token, mark: &[u8; 16]) -> Seen<'_>
        ensures sees { (rows : List ReplyRow) → Holds self.now rows
            → SeenAs (find (λ (row : ReplyRow). bytes_eq row.token (text_of token.now)) rows) mark.now result }
        ensures fresh { IfFresh result (IsFresh self.now (text_of token.now)) }
    {
        see(find_reply(self.replies.as_slice(), token.as_str()), mark)
    }
}

fn keep_all(alloc: Global, rows: Vec<ReplyRow>) -> Result<Vec<KeptReply>, Memory>
    ensures { IfOk result (λ kept. kept.items ≡ map kept_of rows.items) }
{
    let kept = rows
        .into_iter()
        .map(|row| KeptReply::of(row))
        .collect(alloc)?;
    Ok(kept)
}
