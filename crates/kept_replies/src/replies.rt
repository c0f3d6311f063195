//! One reply kept under a token, and looked up among others.
ghost use Rattle.std.specs.Prelude.{◌≡◌, None, List, Option, option_copied, option_map};
ghost use Rattle.std.specs.List.{find};
ghost use Rattle.std.specs.Str.{bytes_eq};
ghost use Rattle.keeper_store.specs.Puts.{Ascends};
ghost use Rattle.keeper_store.specs.declared.row_types.ReplyRow.{ReplyRow};
ghost use Rattle.kept_replies.specs.Orders.{kept_less, kept_in_order};
ghost use Rattle.kept_replies.specs.Rows.{kept_of};
ghost use Rattle.kept_replies.specs.Seeing.{IfFresh, IsPlaceOfToken, SeenAs};

use keeper_store::{Ranked, ReplyRow};
use lib_base::Text;
use library_model::{BodyKind, Reply};

/// The reply that was given to a token, with the mark of its request.
#[derive(Debug, Drop)]
pub struct KeptReply {
    token: Text,
    mark: [u8; 16],
    reply: Reply,
}

/// By the bytes of tokens.
impl Ranked for KeptReply {
    ghost less = { kept_less };

    ghost order = { kept_in_order };

    fn is_before(&self, other: &KeptReply) -> bool {
        self.token.as_str() < other.token.as_str()
    }
}

impl KeptReply {
    /// The kept reply of a row, with no memory taken.
    pub(crate) fn of(row: ReplyRow) -> KeptReply
        ensures { result ≡ kept_of row }
    {
        let ReplyRow {
            token,
            mark,
            status,
            body,
        } = row;
        let kind = BodyKind::Json;
        KeptReply {
            token,
            mark,
            reply: Reply { status, kind, body },
        }
    }
}

/// What is kept under a token, as a request with that token and a mark sees it.
#[derive(Debug)]
pub enum Seen<'a> {
    /// Nothing is kept under the token.
    Fresh,
    /// The request was accepted before, and this was its reply.
    Kept(&'a Reply),
    /// The token was given to another request: one with another mark.
    Other,
}

/// How a request with a mark sees what was found under its token.
pub(crate) fn see<'a>(found: Option<&'a KeptReply>, mark: &[u8; 16]) -> Seen<'a>
    ensures sees { (row : Option ReplyRow) → option_copied found.entry ≡ option_map kept_of row → SeenAs row mark.now result }
    ensures fresh { IfFresh result (option_copied found.entry ≡ None) }
{
    match found {
        Some(kept) => if kept.mark.as_slice() == mark.as_slice() {
            Seen::Kept(&kept.reply)
        } else {
            Seen::Other
        },
        None => Seen::Fresh,
    }
}

/// The reply kept under a token, among replies that ascend by their tokens.
pub(crate) fn find_reply<'a>(replies: &'a [KeptReply], token: &str) -> Option<&'a KeptReply>
    requires { Ascends kept_less replies.now }
    ensures { option_copied result ≡ find (λ (k : KeptReply). bytes_eq k.token token.now) replies.now }
{
    let place = place_of_token(replies, token);
    match replies.get(place) {
        Some(kept) => if kept.token.as_str() == token {
            Some(kept)
        } else {
            None
        },
        None => None,
    }
}

/// How many replies have lesser tokens.
fn place_of_token(replies: &[KeptReply], token: &str) -> usize
    requires { Ascends kept_less replies.now }
    ensures { IsPlaceOfToken token.now replies.now result }
{
    replies.partition_point(|kept| kept.token.as_str() < token)
}
