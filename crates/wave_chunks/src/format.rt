//! The `fmt ` chunk.
ghost use Rattle.std.specs.Prelude.{◌≡◌, ◌≤◌, ◌<◌, ◌+◌, ◌*◌, ◌/◌, ◌⊎◌, length, IfOk, IfErr, OnOk, MatchBool};
ghost use Rattle.file_model.specs.Format.{IsFormat, IsOtherFormat, channels_of, rate_of, depth_of, align_of};
ghost use Rattle.file_model.specs.Rules.{BreaksNoneBelow};
ghost use Rattle.wave_chunks.specs.Answers.{IsRefusalOf, IsFormatContent};
ghost use Rattle.wave_chunks.specs.Formats.{IsLongEnough, IsPcm};

use crate::broken;
use crate::fields::{has_part, number_at, short_at};
use file_model::WaveRule;
use file_model::wave_fields::{
    ALIGN_AT, CHANNELS_AT, DEPTH_AT, EXTENSIBLE_BYTES, EXTENSIBLE_TAG, FORMAT_BYTES, PCM_SUBFORMAT,
    PCM_TAG, RATE_AT, SUBFORMAT_AT, TAG_AT,
};
use lib_base::{MOST_CHANNELS, Refused, SAMPLE_RATE};

/// What a `fmt ` content says.
#[derive(Clone, Copy)]
pub(crate) struct Format {
    pub(crate) channels: u16,
    pub(crate) depth: u16,
    pub(crate) align: u16,
}

/// Reads the content of the `fmt ` chunk, which lies at a place of the file. Byte rate, extension
/// size, valid bits and channel mask are not consulted.
pub(crate) fn read_format(bytes: &[u8], content: &[u8], at: usize) -> Result<Format, Refused>
    requires is_content { IsFormatContent bytes.now content.now at }
    requires lower { BreaksNoneBelow bytes.now WaveRule.ShortFormat }
    ensures format { IfOk result (λ format. IsFormat content.now (channels_of content.now) (depth_of content.now)) }
    ensures channels { IfOk result (λ format. format.channels ≡ channels_of content.now) }
    ensures some { OnOk result (1 ≤ channels_of content.now) }
    ensures few { OnOk result (channels_of content.now ≤ MOST_CHANNELS) }
    ensures depth { IfOk result (λ format. format.depth ≡ depth_of content.now) }
    ensures align { IfOk result (λ format. format.align ≡ align_of content.now) }
    ensures passed { OnOk result (BreaksNoneBelow bytes.now WaveRule.NoData) }
    ensures err { IfErr result (λ refused. IsRefusalOf bytes.now refused) }
{
    check_length(bytes, content, at)?;
    check_form(bytes, content, at)?;
    let channels = read_channels(bytes, content, at)?;
    check_rate(bytes, content, at)?;
    let depth = read_depth(bytes, content, at)?;
    let align = read_align(bytes, content, at, channels, depth)?;
    Ok(Format {
        channels,
        depth,
        align,
    })
}

/// Tries whether the content is as long as its form asks.
fn check_length(bytes: &[u8], content: &[u8], at: usize) -> Result<(), Refused>
    requires is_content { IsFormatContent bytes.now content.now at }
    requires lower { BreaksNoneBelow bytes.now WaveRule.ShortFormat }
    ensures long { OnOk result (IsLongEnough content.now) }
    ensures passed { OnOk result (BreaksNoneBelow bytes.now WaveRule.OtherFormat) }
    ensures err { IfErr result (λ refused. IsRefusalOf bytes.now refused) }
{
    if content.len() < FORMAT_BYTES
        || (content.len() < EXTENSIBLE_BYTES && short_at(content, TAG_AT) == EXTENSIBLE_TAG)
    {
        return Err(broken(WaveRule::ShortFormat, at + TAG_AT));
    }
    Ok(())
}

/// Tries whether the form is PCM.
fn check_form(bytes: &[u8], content: &[u8], at: usize) -> Result<(), Refused>
    requires is_content { IsFormatContent bytes.now content.now at }
    requires long { IsLongEnough content.now }
    requires lower { BreaksNoneBelow bytes.now WaveRule.OtherFormat }
    ensures pcm { OnOk result (IsPcm content.now) }
    ensures passed { OnOk result (BreaksNoneBelow bytes.now WaveRule.OtherChannels) }
    ensures err { IfErr result (λ refused. IsRefusalOf bytes.now refused) }
{
    if !is_pcm(content) {
        return Err(broken(WaveRule::OtherFormat, at + TAG_AT));
    }
    Ok(())
}

/// Whether the tag is that of PCM, or that of the extensible form with the subformat of PCM.
fn is_pcm(content: &[u8]) -> bool
    requires { IsLongEnough content.now }
    ensures { MatchBool result (IsPcm content.now) (IsOtherFormat content.now) }
{
    match short_at(content, TAG_AT) {
        PCM_TAG => true,
        EXTENSIBLE_TAG => has_part(content, SUBFORMAT_AT, PCM_SUBFORMAT.as_slice()),
        _ => false,
    }
}

/// The number of channels.
fn read_channels(bytes: &[u8], content: &[u8], at: usize) -> Result<u16, Refused>
    requires is_content { IsFormatContent bytes.now content.now at }
    requires long { IsLongEnough content.now }
    requires lower { BreaksNoneBelow bytes.now WaveRule.OtherChannels }
    ensures channels { IfOk result (λ channels. channels ≡ channels_of content.now) }
    ensures some { OnOk result (1 ≤ channels_of content.now) }
    ensures few { OnOk result (channels_of content.now ≤ MOST_CHANNELS) }
    ensures passed { OnOk result (BreaksNoneBelow bytes.now WaveRule.OtherRate) }
    ensures err { IfErr result (λ refused. IsRefusalOf bytes.now refused) }
{
    let channels = short_at(content, CHANNELS_AT);
    if channels < 1 || channels > MOST_CHANNELS {
        return Err(broken(WaveRule::OtherChannels, at + CHANNELS_AT));
    }
    Ok(channels)
}

/// Tries the rate.
fn check_rate(bytes: &[u8], content: &[u8], at: usize) -> Result<(), Refused>
    requires is_content { IsFormatContent bytes.now content.now at }
    requires long { IsLongEnough content.now }
    requires lower { BreaksNoneBelow bytes.now WaveRule.OtherRate }
    ensures rate { OnOk result (rate_of content.now ≡ SAMPLE_RATE) }
    ensures passed { OnOk result (BreaksNoneBelow bytes.now WaveRule.OtherDepth) }
    ensures err { IfErr result (λ refused. IsRefusalOf bytes.now refused) }
{
    if number_at(content, RATE_AT) != SAMPLE_RATE {
        return Err(broken(WaveRule::OtherRate, at + RATE_AT));
    }
    Ok(())
}

/// The bits of a sample.
fn read_depth(bytes: &[u8], content: &[u8], at: usize) -> Result<u16, Refused>
    requires is_content { IsFormatContent bytes.now content.now at }
    requires long { IsLongEnough content.now }
    requires lower { BreaksNoneBelow bytes.now WaveRule.OtherDepth }
    ensures depth { IfOk result (λ depth. depth ≡ depth_of content.now) }
    ensures known { OnOk result ((depth_of content.now ≡ 16) ⊎ (depth_of content.now ≡ 24)) }
    ensures passed { OnOk result (BreaksNoneBelow bytes.now WaveRule.OtherAlign) }
    ensures err { IfErr result (λ refused. IsRefusalOf bytes.now refused) }
{
    let depth = short_at(content, DEPTH_AT);
    if depth != 16 && depth != 24 {
        return Err(broken(WaveRule::OtherDepth, at + DEPTH_AT));
    }
    Ok(depth)
}

/// The bytes of a frame.
fn read_align(
    bytes: &[u8],
    content: &[u8],
    at: usize,
    channels: u16,
    depth: u16,
) -> Result<u16, Refused>
    requires is_content { IsFormatContent bytes.now content.now at }
    requires long { IsLongEnough content.now }
    requires channels { channels ≡ channels_of content.now }
    requires few { channels_of content.now ≤ MOST_CHANNELS }
    requires depth { depth ≡ depth_of content.now }
    requires known { (depth_of content.now ≡ 16) ⊎ (depth_of content.now ≡ 24) }
    requires lower { BreaksNoneBelow bytes.now WaveRule.OtherAlign }
    ensures align { IfOk result (λ align. align ≡ align_of content.now) }
    ensures is { OnOk result (align_of content.now ≡ channels_of content.now * depth_of content.now / 8) }
    ensures passed { OnOk result (BreaksNoneBelow bytes.now WaveRule.NoData) }
    ensures err { IfErr result (λ refused. IsRefusalOf bytes.now refused) }
{
    let align = short_at(content, ALIGN_AT);
    if align != channels * depth / 8 {
        return Err(broken(WaveRule::OtherAlign, at + ALIGN_AT));
    }
    Ok(align)
}
