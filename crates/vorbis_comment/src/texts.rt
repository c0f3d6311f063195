//! Lengths and texts at a place of a block.
ghost use Rattle.std.specs.Prelude.{◌≡◌, ◌≤◌, ◌+◌, length, drop, IfOk, OnOk};
ghost use Rattle.file_model.specs.Comments.{count_at, text_at};
ghost use Rattle.file_model.specs.Outcomes.{Gives};
ghost use Rattle.vorbis_comment.specs.Spans.{text_in, IsWithin};

use file_model::CommentBreak;
use file_model::comment_fields::LENGTH_BYTES;
use lib_base::Span;

/// The bytes that lie in a span.
pub(crate) fn text_in(content: &[u8], span: Span) -> &[u8]
    requires { IsWithin content.now span }
    ensures { result.now ≡ text_in content.now span }
{
    let rest = content.split_at(span.start).1;
    rest.split_at(span.end - span.start).0
}

/// The number at a place, or what is broken where it passes the end.
#[tactic(auto, unfolding(file_model::specs::Comments::count_at))]
pub(crate) fn count_at(content: &[u8], at: usize, found: CommentBreak) -> Result<u32, CommentBreak>
    requires { at ≤ length content.now }
    ensures gives { Gives (λ count. (count, drop LENGTH_BYTES (drop at content.now))) result
        (count_at found (drop at content.now)) }
    ensures inside { OnOk result (at + LENGTH_BYTES ≤ length content.now) }
{
    let rest = content.split_at(at).1;
    if rest.len() < LENGTH_BYTES {
        return Err(found);
    }
    Ok(u32::from_le_bytes([rest[0], rest[1], rest[2], rest[3]]))
}

/// Where the text lies whose length stands at a place, or what is broken where it passes the end.
#[tactic(auto, unfolding(file_model::specs::Comments::text_at))]
pub(crate) fn text_at(content: &[u8], at: usize, found: CommentBreak) -> Result<Span, CommentBreak>
    requires { at ≤ length content.now }
    ensures gives { Gives (λ span. (text_in content.now span, drop span.end content.now)) result
        (text_at found (drop at content.now)) }
    ensures within { IfOk result (λ span. IsWithin content.now span) }
{
    let count = count_at(content, at, found)? as usize;
    let start = at + LENGTH_BYTES;
    if content.len() - start < count {
        return Err(found);
    }
    Ok(Span {
        start,
        end: start + count,
    })
}
