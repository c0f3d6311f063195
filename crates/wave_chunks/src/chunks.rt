//! The chunks of a file.
ghost use Rattle.std.specs.Prelude.{◌≡◌, ◌≤◌, ◌<◌, ◌+◌, ◌-◌, ◌%◌, length, drop, slice_get, if◌then◌else◌, nat_lt, IfOk, IfErr, OnOk, MatchOption, []};
ghost use Rattle.file_model.specs.Chunks.{IsCut, number_at};
ghost use Rattle.file_model.specs.Rules.{BreaksNoneBelow};
ghost use Rattle.lib_base.specs.Sounds.{part};
ghost use Rattle.wave_chunks.specs.Answers.{IsRefusalOf};
ghost use Rattle.wave_chunks.specs.Spans.{AreChunks, IsStored, IsPlaceOf, spans_named};

use crate::broken;
use crate::fields::number_at;
use file_model::WaveRule;
use file_model::wave_fields::{CHUNK_HEAD_BYTES, CHUNKS_AT, LENGTH_AT};
use lib_base::{Refused, Span};
use std::alloc::Global;

/// A chunk: its name, and where its content lies.
#[derive(Clone, Copy, Debug, PartialEq, Eq)]
pub struct Chunk {
    pub name: [u8; 4],
    pub content: Span,
}

/// The chunks of a file.
pub(crate) fn read_chunks(alloc: Global, bytes: &[u8]) -> Result<Vec<Chunk>, Refused>
    requires long { CHUNKS_AT ≤ length bytes.now }
    requires lower { BreaksNoneBelow bytes.now WaveRule.CutChunk }
    ensures ok { IfOk result (λ chunks. AreChunks bytes.now chunks.items) }
    ensures passed { OnOk result (BreaksNoneBelow bytes.now WaveRule.RepeatedChunk) }
    ensures err { IfErr result (λ refused. IsRefusalOf bytes.now refused) }
{
    let mut chunks = Vec::new(alloc);
    let mut at = CHUNKS_AT;
    'chunks: while at < bytes.len() {
        let Some(chunk) = chunk_at(bytes, at) else {
            return Err(broken(WaveRule::CutChunk, at));
        };
        chunks.push(chunk)?;
        at = next_head(chunk.content, bytes.len());
    }
    Ok(chunks)
}

/// The chunk whose head lies at a place, if it ends within the file.
fn chunk_at(bytes: &[u8], at: usize) -> Option<Chunk>
    requires { at < length bytes.now }
    ensures { MatchOption result (IsCut (drop at bytes.now)) (λ chunk. IsStored bytes.now at chunk) }
{
    let rest = bytes.split_at(at).1;
    let name = *rest.first_chunk::<4>()?;
    if rest.len() < CHUNK_HEAD_BYTES {
        return None;
    }
    let count = number_at(rest, LENGTH_AT) as usize;
    if rest.len() - CHUNK_HEAD_BYTES < count {
        return None;
    }
    let start = at + CHUNK_HEAD_BYTES;
    Some(Chunk {
        name,
        content: Span {
            start,
            end: start + count,
        },
    })
}

/// Where the next chunk's head lies: behind a pad byte, where the content's length is odd. At the
/// file's end the pad byte may be missing.
fn next_head(content: Span, whole: usize) -> usize
    requires ordered { content.start ≤ content.end }
    requires inside { content.end ≤ whole }
    ensures { result ≡ (if nat_lt content.end whole then content.end + (content.end - content.start) % 2 else whole) }
{
    if content.end < whole {
        content.end + (content.end - content.start) % 2
    } else {
        whole
    }
}

/// Where the head of the chunk lies whose content this is.
pub(crate) fn head_before(content: Span) -> usize
    ensures { result ≡ content.start - CHUNK_HEAD_BYTES }
{
    content.start.saturating_sub(CHUNK_HEAD_BYTES)
}

/// The first two contents of a name.
#[derive(Clone, Copy)]
pub(crate) struct FirstTwo {
    pub(crate) first: Option<Span>,
    pub(crate) second: Option<Span>,
}

/// The first two chunks of a name.
pub(crate) fn named(chunks: &[Chunk], name: [u8; 4]) -> FirstTwo
    ensures first { result.first ≡ slice_get (spans_named name chunks.now) 0 }
    ensures second { result.second ≡ slice_get (spans_named name chunks.now) 1 }
{
    let Some(place) = place_of(chunks, 0, name) else {
        return FirstTwo {
            first: None,
            second: None,
        };
    };
    FirstTwo {
        first: Some(chunks[place].content),
        second: content_from(chunks, place + 1, name),
    }
}

/// The first content of a name, from a place on.
fn content_from(chunks: &[Chunk], from: usize, name: [u8; 4]) -> Option<Span>
    requires { from ≤ length chunks.now }
    ensures { result ≡ slice_get (spans_named name (drop from chunks.now)) 0 }
{
    let place = place_of(chunks, from, name)?;
    Some(chunks[place].content)
}

/// The place of the first chunk of a name, from a place on.
fn place_of(chunks: &[Chunk], from: usize, name: [u8; 4]) -> Option<usize>
    requires { from ≤ length chunks.now }
    ensures { MatchOption result (spans_named name (drop from chunks.now) ≡ [])
        (λ place. IsPlaceOf name from chunks.now place) }
{
    for place in from..chunks.len() {
        if chunks[place].name == name {
            return Some(place);
        }
    }
    None
}
