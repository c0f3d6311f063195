//! What a wave file is made of.
ghost use Rattle.std.specs.Prelude.{◌≡◌, ◌≤◌, ◌<◌, ◌+◌, ◌-◌, ◌%◌, ◌*◌, length, codes, IfOk, IfErr, OnOk};
ghost use Rattle.file_model.specs.Rules.{BreaksNoneBelow};
ghost use Rattle.wave_chunks.specs.Answers.{IsReadOf, IsRefusalOf};
ghost use Rattle.wave_chunks.specs.Formats.{SaysFormat};
ghost use Rattle.wave_chunks.specs.Spans.{IsHeaded, AtMostOne, HasOne, HasRightBext};

use crate::broken;
use crate::chunks::{Chunk, head_before, read_chunks};
use crate::fields::{has_part, number_at};
use crate::format::{Format, read_format};
use crate::parts::find_parts;
use file_model::WaveRule;
use file_model::wave_fields::{BEXT_BYTES, CHUNKS_AT, FORM_AT, SIZE_AT};
use lib_base::{Refused, Span, content_of};
use std::alloc::Global;
use std::marker::Model;

/// The parts of a wave file.
#[derive(Debug, Drop)]
pub struct Wave {
    chunks: Vec<Chunk>,
    channels: u32,
    depth: u32,
    frames: u64,
    samples: Span,
    bext: Option<Span>,
}

impl Model for Wave {
    ghost use Rattle.wave_chunks.specs.Shape.{Shape};

    ghost Value = { Shape };

    ghost view = { λ w. record {
      chunks = w.chunks.items;
      channels = w.channels;
      depth = w.depth;
      frames = w.frames;
      samples = w.samples;
      bext = w.bext;
    } };
}

impl Wave {
    /// The chunks, in the file's order.
    pub fn chunks(&self) -> &[Chunk]
        ensures { result.now ≡ self.now.chunks }
    {
        self.chunks.as_slice()
    }

    /// How many channels it has.
    pub fn channels(&self) -> u32
        ensures { result ≡ self.now.channels }
    {
        self.channels
    }

    /// How many bits a sample has.
    pub fn depth(&self) -> u32
        ensures { result ≡ self.now.depth }
    {
        self.depth
    }

    /// How many samples each channel has.
    pub fn frames(&self) -> u64
        ensures { result ≡ self.now.frames }
    {
        self.frames
    }

    /// Where the samples lie.
    pub fn samples(&self) -> Span
        ensures { result ≡ self.now.samples }
    {
        self.samples
    }

    /// Where the content of the `bext` chunk lies, if there is one.
    pub fn bext(&self) -> Option<Span>
        ensures { result ≡ self.now.bext }
    {
        self.bext
    }
}

/// Reads a wave file. What is none is broken by the lowest rule that it breaks, at its place.
pub fn read(alloc: Global, bytes: &[u8]) -> Result<Wave, Refused>
    ensures ok { IfOk result (λ wave. IsReadOf bytes.now wave) }
    ensures err { IfErr result (λ refused. IsRefusalOf bytes.now refused) }
{
    check_head(bytes)?;
    let chunks = read_chunks(alloc, bytes)?;
    let parts = find_parts(bytes, chunks.as_slice())?;
    let format = find_format(bytes, parts.format)?;
    let samples = find_samples(bytes, parts.samples, format)?;
    check_bext(bytes, parts.bext)?;
    let frames = length_of(samples) as u64 / u64::from(format.align);
    Ok(Wave {
        chunks,
        channels: u32::from(format.channels),
        depth: u32::from(format.depth),
        frames,
        samples,
        bext: parts.bext,
    })
}

/// Tries the bytes before the chunks.
fn check_head(bytes: &[u8]) -> Result<(), Refused>
    ensures headed { OnOk result (IsHeaded bytes.now) }
    ensures passed { OnOk result (BreaksNoneBelow bytes.now WaveRule.CutChunk) }
    ensures err { IfErr result (λ refused. IsRefusalOf bytes.now refused) }
{
    if bytes.len() < CHUNKS_AT || !has_part(bytes, 0, b"RIFF".as_slice()) {
        return Err(broken(WaveRule::NoRiff, 0));
    }
    if !has_part(bytes, FORM_AT, b"WAVE".as_slice()) {
        return Err(broken(WaveRule::OtherForm, FORM_AT));
    }
    let counted = u64::from(number_at(bytes, SIZE_AT)) + FORM_AT as u64;
    if counted.abs_diff(bytes.len() as u64) > 1 {
        return Err(broken(WaveRule::OtherSize, SIZE_AT));
    }
    Ok(())
}

/// The format that the `fmt ` chunk says.
fn find_format(bytes: &[u8], found: Option<Span>) -> Result<Format, Refused>
    requires found { AtMostOne bytes.now (codes "fmt ") found }
    requires lower { BreaksNoneBelow bytes.now WaveRule.NoFormat }
    ensures format { IfOk result (λ format. SaysFormat bytes.now format) }
    ensures passed { OnOk result (BreaksNoneBelow bytes.now WaveRule.NoData) }
    ensures err { IfErr result (λ refused. IsRefusalOf bytes.now refused) }
{
    let Some(span) = found else {
        return Err(broken(WaveRule::NoFormat, bytes.len()));
    };
    read_format(bytes, content_of(bytes, span), span.start)
}

/// Where the samples lie, in whole frames.
fn find_samples(bytes: &[u8], found: Option<Span>, format: Format) -> Result<Span, Refused>
    requires found { AtMostOne bytes.now (codes "data") found }
    requires format { SaysFormat bytes.now format }
    requires lower { BreaksNoneBelow bytes.now WaveRule.NoData }
    ensures samples { IfOk result (λ span. HasOne bytes.now (codes "data") span) }
    ensures whole { IfOk result (λ span. (span.end - span.start) % format.align ≡ 0) }
    ensures passed { OnOk result (BreaksNoneBelow bytes.now WaveRule.ShortBext) }
    ensures err { IfErr result (λ refused. IsRefusalOf bytes.now refused) }
{
    let Some(span) = found else {
        return Err(broken(WaveRule::NoData, bytes.len()));
    };
    if length_of(span) % usize::from(format.align) != 0 {
        return Err(broken(WaveRule::PartFrame, head_before(span)));
    }
    Ok(span)
}

/// Tries whether the `bext` chunk is long enough, where there is one.
fn check_bext(bytes: &[u8], found: Option<Span>) -> Result<(), Refused>
    requires found { AtMostOne bytes.now (codes "bext") found }
    requires lower { BreaksNoneBelow bytes.now WaveRule.ShortBext }
    ensures right { OnOk result (HasRightBext bytes.now found) }
    ensures err { IfErr result (λ refused. IsRefusalOf bytes.now refused) }
{
    let Some(span) = found else {
        return Ok(());
    };
    if length_of(span) < BEXT_BYTES {
        return Err(broken(WaveRule::ShortBext, head_before(span)));
    }
    Ok(())
}

/// How many bytes lie in a span.
fn length_of(span: Span) -> usize
    ensures { result ≡ span.end - span.start }
{
    span.end.saturating_sub(span.start)
}
