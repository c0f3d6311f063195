//! The metadata blocks of a file (RFC 9639 section 8).
ghost use Rattle.std.specs.Prelude.{◌≡◌, ◌≤◌, ◌<◌, ◌+◌, ◌^◌, length, drop, codes, if◌then◌else◌, ◌==◌, Some, IfOk, IfErr, true, false};
ghost use Rattle.bit_codec.specs.Reader.{left, source};
ghost use Rattle.file_model.specs.FlacFile.{of_block};
ghost use Rattle.file_model.specs.Fields.{field};
ghost use Rattle.file_model.specs.Outcomes.{Gives};
ghost use Rattle.lib_base.specs.Sounds.{part};
ghost use Rattle.flac_stream.specs.Answers.{IsRefusalOf};
ghost use Rattle.flac_stream.specs.Blocks.{head_at, may_stand, repeats, tested_at, head_of, found_by, Opens};

use crate::rules::{holds, refused};
use bit_codec::BitReader;
use file_model::FlacRule;
use file_model::flac_fields::{
    BLOCK_HEAD_BYTES, BLOCKS_AT, COMMENTS, INVALID, STREAMINFO, STREAMINFO_BYTES,
};
use lib_base::{Refused, Span};
use std::alloc::Global;

/// A metadata block: its type, and where its content lies.
#[derive(Clone, Copy, Debug, PartialEq, Eq)]
pub struct Block {
    pub kind: u8,
    pub content: Span,
}

/// What the head of a block says: whether it is flagged as the last one, its type, and the bytes of
/// its content.
#[derive(Clone, Copy)]
struct Head {
    is_last: bool,
    kind: u8,
    count: usize,
}

/// The blocks of a file, which of them holds comments, and where they end.
#[derive(Drop)]
pub(crate) struct Blocks {
    pub(crate) items: Vec<Block>,
    pub(crate) comments: Option<usize>,
    pub(crate) end: usize,
}

/// Reads the blocks of a file, up to the one that is flagged as the last.
pub(crate) fn read_blocks(alloc: Global, bytes: &[u8]) -> Result<Blocks, Refused>
    requires long { BLOCKS_AT ≤ length bytes.now }
    requires marked { part bytes.now 0 BLOCKS_AT ≡ codes "fLaC" }
    ensures ok { IfOk result (λ blocks. Opens bytes.now blocks.items.items blocks.comments blocks.end) }
    ensures err { IfErr result (λ refused. IsRefusalOf bytes.now refused) }
{
    let mut items = Vec::new(alloc);
    let mut comments = None;
    let mut at = BLOCKS_AT;
    'heads: loop {
        let head = match read_block(bytes, at, items.len() == 0, comments.is_some()) {
            Ok(head) => head,
            Err(rule) => return Err(refused(rule, at)),
        };
        comments = comments_with(comments, head.kind, items.len());
        let block = block_behind(at, head);
        items.push(block)?;
        at = block.content.end;
        if head.is_last {
            return Ok(Blocks {
                items,
                comments,
                end: at,
            });
        }
    }
}

/// The block whose head lies at a place.
fn block_behind(at: usize, head: Head) -> Block
    requires { at + BLOCK_HEAD_BYTES + head.count < 2 ^ 63 }
    ensures kind { result.kind ≡ head.kind }
    ensures start { result.content.start ≡ at + BLOCK_HEAD_BYTES }
    ensures end { result.content.end ≡ at + BLOCK_HEAD_BYTES + head.count }
{
    let start = at + BLOCK_HEAD_BYTES;
    Block {
        kind: head.kind,
        content: Span {
            start,
            end: start + head.count,
        },
    }
}

/// The place of the comments among the blocks, with one block more.
fn comments_with(comments: Option<usize>, kind: u8, place: usize) -> Option<usize>
    ensures { result ≡ (if kind == COMMENTS then Some place else comments) }
{
    if kind == COMMENTS {
        Some(place)
    } else {
        comments
    }
}

/// Reads the head of a block, and tries its rules. Of the blocks before it counts whether it has
/// none, and whether one holds comments.
#[tactic(auto, unfolding(crate::specs::Blocks::tested_at))]
fn read_block(bytes: &[u8], at: usize, is_first: bool, has_comments: bool) -> Result<Head, FlacRule>
    requires { at ≤ length bytes.now }
    ensures gives { Gives (λ head. found_by (head_of head) (drop at bytes.now)) result
        (tested_at is_first has_comments (drop at bytes.now)) }
    ensures inside { IfOk result (λ head. at + (BLOCK_HEAD_BYTES + head.count) ≤ length bytes.now) }
    ensures stands { IfOk result (λ head. may_stand is_first head.kind head.count ≡ true) }
    ensures once { IfOk result (λ head. repeats is_first has_comments head.kind ≡ false) }
{
    let head = read_head(bytes, at)?;
    let left = bytes.len() - at;
    holds(BLOCK_HEAD_BYTES + head.count <= left, FlacRule::CutBlock)?;
    holds(head.kind != INVALID, FlacRule::InvalidBlock)?;
    holds(
        may_stand(is_first, head.kind, head.count),
        FlacRule::NoStreaminfo,
    )?;
    holds(
        !repeats(is_first, has_comments, head.kind),
        FlacRule::RepeatedBlock,
    )?;
    Ok(head)
}

/// Whether a block of this type and length may stand there: STREAMINFO comes first.
fn may_stand(is_first: bool, kind: u8, count: usize) -> bool
    ensures { result ≡ may_stand is_first kind count }
{
    if is_first {
        kind == STREAMINFO && count == STREAMINFO_BYTES
    } else {
        true
    }
}

/// Whether a block of this type is one too many.
fn repeats(is_first: bool, has_comments: bool, kind: u8) -> bool
    ensures { result ≡ repeats is_first has_comments kind }
{
    if kind == STREAMINFO {
        !is_first
    } else {
        kind == COMMENTS && has_comments
    }
}

/// Reads the head of the block at a place.
#[tactic(auto, unfolding(crate::specs::Blocks::head_at))]
fn read_head(bytes: &[u8], at: usize) -> Result<Head, FlacRule>
    requires { at ≤ length bytes.now }
    ensures gives { Gives head_of result (head_at (drop at bytes.now)) }
    ensures small { IfOk result (λ head. head.count < 2 ^ 24) }
{
    let mut reader = BitReader::at(bytes, at);
    let last = take(&mut reader, 1)?;
    let kind = take(&mut reader, 7)?;
    let count = take(&mut reader, 24)?;
    Ok(Head {
        is_last: last == 1,
        kind: kind as u8,
        count: count as usize,
    })
}

/// A field of a block's head.
fn take(reader: &mut BitReader, count: u32) -> Result<u32, FlacRule>
    requires { count ≤ 32 }
    ensures gives { Gives (λ value. (value, left reader.new)) result
        (of_block (field count (left reader.old))) }
    ensures small { IfOk result (λ value. value < 2 ^ count) }
    ensures whole { source reader.new ≡ source reader.old }
{
    match reader.take(count) {
        Ok(value) => Ok(value),
        Err(_) => Err(FlacRule::CutBlock),
    }
}
