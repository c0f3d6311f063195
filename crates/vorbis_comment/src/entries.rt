//! The comments of a block, one after another.
ghost use Rattle.std.specs.Prelude.{◌≡◌, ◌≤◌, length, drop, map, All, Ok, IfOk, IfErr};
ghost use Rattle.file_model.specs.Comments.{entry_at};
ghost use Rattle.file_model.specs.Outcomes.{Gives, times_at};
ghost use Rattle.vorbis_comment.specs.Answers.{Refuses};
ghost use Rattle.vorbis_comment.specs.Spans.{text_in, IsWithin};

use crate::rules::refused;
use crate::texts::text_at;
use file_model::{CommentBreak, CommentRule};
use lib_base::{Refused, Span};
use std::alloc::Global;

/// Where comments lie, and where the bytes behind them begin.
#[derive(Drop)]
pub(crate) struct Entries {
    pub(crate) spans: Vec<Span>,
    pub(crate) end: usize,
}

/// Where so many comments lie, the first of which begins with its length at a place.
pub(crate) fn read_entries(
    alloc: Global,
    content: &[u8],
    at: usize,
    count: u32,
) -> Result<Entries, Refused>
    requires { at ≤ length content.now }
    ensures ok { IfOk result (λ entries. times_at (entry_at content.now) count (drop at content.now)
        ≡ Ok (map (text_in content.now) entries.spans.items, drop entries.end content.now)) }
    ensures within { IfOk result (λ entries. All (IsWithin content.now) entries.spans.items) }
    ensures inside { IfOk result (λ entries. entries.end ≤ length content.now) }
    ensures err { IfErr result (λ refused.
        Refuses refused (times_at (entry_at content.now) count (drop at content.now))) }
{
    let mut spans = Vec::new(alloc);
    let mut end = at;
    for index in 0..count {
        let span = match entry_at(content, end) {
            Ok(span) => span,
            Err(found) => return Err(refused(found)),
        };
        spans.push(span)?;
        end = span.end;
    }
    Ok(Entries { spans, end })
}

/// Where the comment lies whose length stands at a place.
fn entry_at(content: &[u8], at: usize) -> Result<Span, CommentBreak>
    requires { at ≤ length content.now }
    ensures gives { Gives (λ span. (text_in content.now span, drop span.end content.now)) result
        (entry_at content.now (drop at content.now)) }
    ensures within { IfOk result (λ span. IsWithin content.now span) }
{
    text_at(
        content,
        at,
        CommentBreak {
            rule: CommentRule::CutComment,
            place: at,
        },
    )
}
