//! The rows of kept replies.
ghost use Rattle.std.specs.Prelude.{◌≡◌, ◌<◌, [], length, take, reverse, get_or};
ghost use Rattle.library_model.specs.RowRules.{reply_rule, bad_reply, first_bad_of, is_above, token_before};

use crate::names::is_token;
use keeper_store::ReplyRow;
use library_model::{BadRow, RowRule, RowTable};

/// The first kept reply that breaks a rule. It is told by its place, counted from 1.
pub(crate) fn first_bad(replies: &[ReplyRow]) -> Option<BadRow>
    ensures { result ≡ first_bad_of bad_reply [] replies.now }
{
    for index in 0..replies.len() {
        if let Some(rule) = broken_rule(rises_at(replies, index), &replies[index]) {
            return Some(BadRow {
                table: RowTable::Replies,
                id: index as u64 + 1,
                rule,
            });
        }
    }
    None
}

/// Whether the token of a row is above that of the row before it, if there is one.
fn rises_at(replies: &[ReplyRow], index: usize) -> bool
    requires { index < length replies.now }
    ensures { (row : ReplyRow) → row ≡ get_or replies.now index row
        → result ≡ is_above (token_before (reverse (take index replies.now))) row.token }
{
    if index == 0 {
        return true;
    }
    replies[index - 1].token.as_str() < replies[index].token.as_str()
}

/// The rule that a kept reply breaks, whose token is above the one before it or is not.
fn broken_rule(rises: bool, row: &ReplyRow) -> Option<RowRule>
    ensures { result ≡ reply_rule rises row.now }
{
    if !rises {
        return Some(RowRule::OtherNumber);
    }
    if !is_token(row.token.as_str()) {
        return Some(RowRule::OtherText);
    }
    if row.status != 200 && row.status != 201 {
        return Some(RowRule::OtherStatus);
    }
    None
}
