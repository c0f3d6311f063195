//! The parts of a block: vendor, count and comments, with nothing left over.
ghost use Rattle.std.specs.Prelude.{◌≡◌, ◌≤◌, ◌+◌, length, drop, Ok, IfOk, IfErr, OnOk};
ghost use Rattle.file_model.specs.Comments.{comments_at};
ghost use Rattle.file_model.specs.Outcomes.{Gives};
ghost use Rattle.vorbis_comment.specs.Answers.{IsRefusalOf};
ghost use Rattle.vorbis_comment.specs.Heads.{head_at, vendor_at, entries_count_at};
ghost use Rattle.vorbis_comment.specs.Spans.{text_in, IsWithin, comments_of, AreWithin};

use crate::entries::read_entries;
use crate::rules::refused;
use crate::texts::{count_at, text_at};
use file_model::comment_fields::LENGTH_BYTES;
use file_model::{CommentBreak, CommentRule};
use lib_base::{Refused, Span};
use std::alloc::Global;

/// Where the vendor and the comments lie.
#[derive(Drop)]
pub(crate) struct Parts {
    pub(crate) vendor: Span,
    pub(crate) entries: Vec<Span>,
}

/// What stands before the comments: the vendor, and their count.
#[derive(Clone, Copy)]
struct Head {
    vendor: Span,
    count: u32,
    end: usize,
}

/// Where the vendor and the comments of a block lie.
pub(crate) fn read_parts(alloc: Global, content: &[u8]) -> Result<Parts, Refused>
    ensures ok { IfOk result (λ parts. comments_at content.now
        ≡ Ok (comments_of content.now parts.vendor parts.entries.items)) }
    ensures within { IfOk result (λ parts. AreWithin content.now parts.vendor parts.entries.items) }
    ensures err { IfErr result (λ refused. IsRefusalOf content.now refused) }
{
    let head = match read_head(content) {
        Ok(head) => head,
        Err(found) => return Err(refused(found)),
    };
    let entries = match read_entries(alloc, content, head.end, head.count) {
        Ok(entries) => entries,
        Err(refused) => return Err(refused),
    };
    if entries.end < content.len() {
        return Err(refused(CommentBreak {
            rule: CommentRule::BytesLeft,
            place: entries.end,
        }));
    }
    Ok(Parts {
        vendor: head.vendor,
        entries: entries.spans,
    })
}

/// What stands before the comments.
#[tactic(auto, unfolding(crate::specs::Heads::head_at))]
fn read_head(content: &[u8]) -> Result<Head, CommentBreak>
    ensures gives { Gives
        (λ head. ((text_in content.now head.vendor, head.count), drop head.end content.now))
        result (head_at content.now) }
    ensures within { IfOk result (λ head. IsWithin content.now head.vendor) }
    ensures inside { IfOk result (λ head. head.end ≤ length content.now) }
{
    let vendor = read_vendor(content)?;
    let count = read_count(content, vendor.end)?;
    Ok(Head {
        vendor,
        count,
        end: vendor.end + LENGTH_BYTES,
    })
}

/// Where the vendor lies.
fn read_vendor(content: &[u8]) -> Result<Span, CommentBreak>
    ensures gives { Gives (λ span. (text_in content.now span, drop span.end content.now)) result
        (vendor_at content.now) }
    ensures within { IfOk result (λ span. IsWithin content.now span) }
{
    text_at(
        content,
        0,
        CommentBreak {
            rule: CommentRule::CutVendor,
            place: 0,
        },
    )
}

/// How many comments a block has, a number that stands at a place.
fn read_count(content: &[u8], at: usize) -> Result<u32, CommentBreak>
    requires { at ≤ length content.now }
    ensures gives { Gives (λ count. (count, drop LENGTH_BYTES (drop at content.now))) result
        (entries_count_at content.now (drop at content.now)) }
    ensures inside { OnOk result (at + LENGTH_BYTES ≤ length content.now) }
{
    count_at(
        content,
        at,
        CommentBreak {
            rule: CommentRule::CutComment,
            place: at,
        },
    )
}
