//! The chunks that stand once at most.
ghost use Rattle.std.specs.Prelude.{◌≡◌, codes, IfOk, IfErr, OnOk};
ghost use Rattle.file_model.specs.Chunks.{earlier};
ghost use Rattle.file_model.specs.Rules.{BreaksNoneBelow};
ghost use Rattle.wave_chunks.specs.Answers.{IsRefusalOf};
ghost use Rattle.wave_chunks.specs.Spans.{AreChunks, AtMostOne, head_of};

use crate::broken;
use crate::chunks::{Chunk, head_before, named};
use file_model::WaveRule;
use lib_base::{Refused, Span};

/// Where the contents of the chunks lie that stand once at most.
#[derive(Clone, Copy)]
pub(crate) struct Parts {
    pub(crate) format: Option<Span>,
    pub(crate) samples: Option<Span>,
    pub(crate) bext: Option<Span>,
}

/// Finds the `fmt `, `data` and `bext` chunks.
pub(crate) fn find_parts(bytes: &[u8], chunks: &[Chunk]) -> Result<Parts, Refused>
    requires chunks { AreChunks bytes.now chunks.now }
    requires lower { BreaksNoneBelow bytes.now WaveRule.RepeatedChunk }
    ensures format { IfOk result (λ parts. AtMostOne bytes.now (codes "fmt ") parts.format) }
    ensures samples { IfOk result (λ parts. AtMostOne bytes.now (codes "data") parts.samples) }
    ensures bext { IfOk result (λ parts. AtMostOne bytes.now (codes "bext") parts.bext) }
    ensures passed { OnOk result (BreaksNoneBelow bytes.now WaveRule.NoFormat) }
    ensures err { IfErr result (λ refused. IsRefusalOf bytes.now refused) }
{
    let format = named(chunks, *b"fmt ");
    let samples = named(chunks, *b"data");
    let bext = named(chunks, *b"bext");
    let repeats = earlier(head_of(samples.second), head_of(bext.second));
    if let Some(place) = earlier(head_of(format.second), repeats) {
        return Err(broken(WaveRule::RepeatedChunk, place));
    }
    Ok(Parts {
        format: format.first,
        samples: samples.first,
        bext: bext.first,
    })
}

/// Where the head of the chunk lies whose content this is, if there is one.
fn head_of(content: Option<Span>) -> Option<usize>
    ensures { result ≡ head_of content }
{
    match content {
        Some(span) => Some(head_before(span)),
        None => None,
    }
}

/// The lesser of two places, where both are there.
fn earlier(one: Option<usize>, other: Option<usize>) -> Option<usize>
    ensures { result ≡ earlier one other }
{
    match (one, other) {
        (Some(one), Some(other)) => Some(one.min(other)),
        (Some(one), None) => Some(one),
        (None, place) => place,
    }
}
