//! The header of a frame (RFC 9639 section 9.1).
ghost use Rattle.std.specs.Prelude.{◌≡◌, ◌≤◌, ◌<◌, ◌+◌, ◌-◌, ◌%◌, ℕ, List, length, drop, take, IfOk, OnOk};
ghost use Rattle.bit_codec.specs.Reader.{left, source, place};
ghost use Rattle.file_model.specs.Bits.{bits};
ghost use Rattle.file_model.specs.Crc.{crc8};
ghost use Rattle.file_model.specs.FlacHeader.{bytes_before, codes_at, size_at, rate_at, named_rate, channels_of, stereo_of, depth_of, header_at};
ghost use Rattle.file_model.specs.Outcomes.{Gives, Is};
ghost use Rattle.flac_frames.specs.declared.frame.TheConstants.{GREATEST_BLOCK};
ghost use Rattle.flac_frames.specs.Answers.{Answers};
ghost use Rattle.flac_frames.specs.Headers.{codes_of, header_of, IsFit, TakesBytes};

use crate::rules::{broken, holds};
use bit_codec::{BitReader, crc8};
use file_model::{FlacRule, Info, Stereo};
use lib_base::Broken;

/// The bits by which a frame is found.
const SYNC_CODE: u32 = 0b111_1111_1111_1100;

/// What the header of a frame says.
#[derive(Clone, Copy, Debug, PartialEq, Eq)]
pub struct Header {
    /// The bytes of the header.
    pub length: usize,
    /// The samples of each channel.
    pub block: u32,
    /// How two channels stand for left and right, where they do.
    pub stereo: Option<Stereo>,
}

/// The codes at the start of a header.
#[derive(Clone, Copy)]
struct Codes {
    size: u32,
    rate: u32,
    channels: u32,
    depth: u32,
}

/// Reads the header of the frame that begins at a place (RFC 9639 section 9.1).
///
/// The information is the file's. The coded number may be any, a block 65,536 samples long.
///
/// # Errors
///
/// The bytes from there on are refused with the rule of a header that they break first, in the order
/// of the bits: of sync code, codes and coded number, of another rate, number of channels or depth
/// than the file's, then of the check.
pub fn read_header(bytes: &[u8], at: usize, info: &Info) -> Result<Header, Broken>
    requires { at ≤ length bytes.now }
    ensures header { Answers header_of at (Is (header_at info.now (drop at bytes.now))) result }
    ensures fits { IfOk result (IsFit info.now bytes.now at) }
{
    header_at(bytes, at, info).map_err(|rule| broken(rule, at))
}

/// The header of the frame that begins at a place.
#[tactic(auto, using(crate::proofs::Wholes::coded_whole), unfolding(file_model::specs::FlacHeader::header_at))]
pub(crate) fn header_at(bytes: &[u8], at: usize, info: &Info) -> Result<Header, FlacRule>
    requires { at ≤ length bytes.now }
    ensures gives { Gives header_of result (header_at info.now (drop at bytes.now)) }
    ensures fits { IfOk result (IsFit info.now bytes.now at) }
{
    let mut reader = BitReader::at(bytes, at);
    let codes = read_codes(&mut reader)?;
    reader.coded_number()?;
    let block = read_block_size(&mut reader, codes.size)?;
    let rate = read_rate(&mut reader, codes.rate, info.rate)?;
    holds(rate == info.rate, FlacRule::FrameRate)?;
    holds(
        channels_of(codes.channels) == info.channels,
        FlacRule::FrameChannels,
    )?;
    holds(
        depth_of(codes.depth, info.depth) == info.depth,
        FlacRule::FrameDepth,
    )?;
    let end = end_of(&reader, bytes, at);
    let check = reader.take(8)?;
    holds(check == check_over(bytes, at, end), FlacRule::HeaderCheck)?;
    Ok(Header {
        length: end + 1 - at,
        block,
        stereo: stereo_of(codes.channels),
    })
}

/// Where a reader stands that took whole bytes from a place on.
#[tactic(auto, using(crate::proofs::Places::stands_behind))]
pub(crate) fn end_of(reader: &BitReader, bytes: &[u8], at: usize) -> usize
    requires place { at ≤ length bytes.now }
    requires of_bytes { source reader.now ≡ bytes.now }
    requires whole { TakesBytes (bits (drop at bytes.now)) (left reader.now) }
    ensures within { result ≤ length bytes.now }
    ensures before { result ≡ at + bytes_before (drop at bytes.now) (left reader.now) }
{
    reader.byte()
}

/// The check over the bytes from one place up to another.
fn check_over(bytes: &[u8], from: usize, to: usize) -> u32
    requires start { from ≤ to }
    requires end { to ≤ length bytes.now }
    ensures { result ≡ crc8 (take (to - from) (drop from bytes.now)) }
{
    u32::from(crc8(&bytes[from..to]))
}

/// Reads the sync code, the strategy and the codes.
#[tactic(auto, using(crate::proofs::Wholes::field_shorter), unfolding(file_model::specs::FlacHeader::codes_at))]
fn read_codes(reader: &mut BitReader) -> Result<Codes, FlacRule>
    ensures gives { Gives (λ codes. (codes_of codes, left reader.new)) result (codes_at (left reader.old)) }
    ensures bytes { OnOk result (TakesBytes (left reader.old) (left reader.new)) }
    ensures whole { source reader.new ≡ source reader.old }
    ensures size { IfOk result (λ codes. (1 ≤ codes.size) × (codes.size < 16)) }
    ensures rate { IfOk result (λ codes. codes.rate < 15) }
    ensures channels { IfOk result (λ codes. codes.channels < 16) }
{
    let sync = reader.take(15)?;
    holds(sync == SYNC_CODE, FlacRule::LostSync)?;
    reader.take(1)?;
    let size = reader.take(4)?;
    holds(size != 0, FlacRule::ReservedBlockSize)?;
    let rate = reader.take(4)?;
    holds(rate != 15, FlacRule::ForbiddenRate)?;
    let channels = reader.take(4)?;
    holds(channels < 11, FlacRule::ReservedChannels)?;
    let depth = reader.take(3)?;
    holds(depth != 3, FlacRule::ReservedDepth)?;
    let reserved = reader.take(1)?;
    holds(reserved == 0, FlacRule::ReservedBit)?;
    Ok(Codes {
        size,
        rate,
        channels,
        depth,
    })
}

/// The samples of each channel, which may stand behind the coded number.
#[tactic(auto, using(crate::proofs::Wholes::field_shorter), unfolding(file_model::specs::FlacHeader::size_at))]
fn read_block_size(reader: &mut BitReader, code: u32) -> Result<u32, FlacRule>
    requires some { 1 ≤ code }
    requires small { code < 16 }
    ensures gives { Gives (λ block. (block, left reader.new)) result (size_at code (left reader.old)) }
    ensures some { IfOk result (λ block. 1 ≤ block) }
    ensures few { IfOk result (λ block. block ≤ GREATEST_BLOCK) }
    ensures bytes { OnOk result (TakesBytes (left reader.old) (left reader.new)) }
    ensures whole { source reader.new ≡ source reader.old }
{
    match code {
        1 => Ok(192),
        2..=5 => Ok(144 << code),
        6 => Ok(reader.take(8)? + 1),
        7 => Ok(reader.take(16)? + 1),
        _ => Ok(1 << code),
    }
}

/// The frames a second, which may be the file's or stand behind the block size.
#[tactic(auto, using(crate::proofs::Wholes::field_shorter), unfolding(file_model::specs::FlacHeader::rate_at))]
fn read_rate(reader: &mut BitReader, code: u32, own: u32) -> Result<u32, FlacRule>
    requires { code < 15 }
    ensures gives { Gives (λ rate. (rate, left reader.new)) result (rate_at own code (left reader.old)) }
    ensures bytes { OnOk result (TakesBytes (left reader.old) (left reader.new)) }
    ensures whole { source reader.new ≡ source reader.old }
{
    match code {
        0 => Ok(own),
        12 => Ok(reader.take(8)? * 1_000),
        13 => reader.take(16).map_err(FlacRule::from),
        14 => Ok(reader.take(16)? * 10),
        _ => Ok(named_rate(code)),
    }
}

/// The frames a second that a code names.
fn named_rate(code: u32) -> u32
    ensures { result ≡ named_rate code }
{
    match code {
        1 => 88_200,
        2 => 176_400,
        3 => 192_000,
        4 => 8_000,
        5 => 16_000,
        6 => 22_050,
        7 => 24_000,
        8 => 32_000,
        9 => 44_100,
        10 => 48_000,
        _ => 96_000,
    }
}

/// The number of channels.
fn channels_of(code: u32) -> u32
    requires { code < 16 }
    ensures { result ≡ channels_of code }
{
    if code < 8 { code + 1 } else { 2 }
}

/// How two channels stand for left and right, where they do.
fn stereo_of(code: u32) -> Option<Stereo>
    ensures { result ≡ stereo_of code }
{
    match code {
        8 => Some(Stereo::LeftSide),
        9 => Some(Stereo::SideRight),
        10 => Some(Stereo::MidSide),
        _ => None,
    }
}

/// The bits of a sample, which may be the file's.
fn depth_of(code: u32, own: u32) -> u32
    ensures { result ≡ depth_of own code }
{
    match code {
        0 => own,
        1 => 8,
        2 => 12,
        4 => 16,
        5 => 20,
        6 => 24,
        _ => 32,
    }
}
