//! A whole frame (RFC 9639 section 9).
ghost use Rattle.std.specs.Prelude.{◌≡◌, ◌≤◌, ◌<◌, ◌+◌, ◌-◌, ◌*◌, ℕ, length, take, drop, IfOk};
ghost use Rattle.std.specs.Simd.{first_chunks};
ghost use Rattle.bit_codec.specs.Reader.{left, source};
ghost use Rattle.lib_base.specs.Sounds.{part, samples_of};
ghost use Rattle.lib_base.specs.declared.limits.TheConstants.{LEAST_DEPTH, GREATEST_DEPTH, MOST_CHANNELS};
ghost use Rattle.file_model.specs.Bits.{bits};
ghost use Rattle.file_model.specs.Crc.{crc16};
ghost use Rattle.file_model.specs.FlacFrame.{footer_at, Body, Frame};
ghost use Rattle.file_model.specs.Outcomes.{Gives};
ghost use Rattle.flac_frames.specs.Answers.{Answers, Comes};
ghost use Rattle.flac_frames.specs.Frames.{check_at, frame_in, HasBlock};
ghost use Rattle.flac_frames.specs.Headers.{header_of, IsFit, TakesBytes};

use crate::channels::read_sound;
use crate::header::{Header, end_of, header_at};
use crate::rules::{broken, holds};
use bit_codec::{BitReader, crc16};
use file_model::{FlacRule, Info};
use lib_base::{Broken, Scratch};

/// The samples that a block can have.
pub const GREATEST_BLOCK: u32 = 65_536;

/// Where a frame ends.
#[derive(Clone, Copy, Debug, PartialEq, Eq)]
pub struct FrameEnd {
    /// The place behind its last byte.
    pub next: usize,
    /// The samples of each channel.
    pub block: u32,
}

/// Reads the frame that begins at a place (RFC 9639 section 9), its samples into the scratch: the
/// channels one after another, each of `block` cells, as `channel` shows them.
///
/// The information is the file's. After a refusal the scratch holds anything.
///
/// # Errors
///
/// The bytes from there on are refused with the rule of a frame that they break first, in the order
/// of the bits: a residual's range as it is read, the depth of samples behind their subframe, that
/// of a restored pair behind the last one.
pub fn read_frame(
    bytes: &[u8],
    at: usize,
    info: &Info,
    scratch: &mut Scratch,
) -> Result<FrameEnd, Broken>
    requires place { at ≤ length bytes.now }
    requires some { 1 ≤ info.now.channels }
    requires few { info.now.channels ≤ MOST_CHANNELS }
    requires low { LEAST_DEPTH ≤ info.now.depth }
    requires high { info.now.depth ≤ GREATEST_DEPTH }
    requires room { info.now.channels * GREATEST_BLOCK ≤ length scratch.old.cells }
    ensures frame { Answers (frame_in scratch.new.cells info.now.channels at) at
        (Frame info.now (drop at bytes.now)) result }
    ensures next { IfOk result (λ end. (at < end.next) × (end.next ≤ length bytes.now)) }
    ensures block { IfOk result (λ end. (1 ≤ end.block) × (end.block ≤ GREATEST_BLOCK)) }
    ensures headed { IfOk result (λ end. HasBlock info.now (drop at bytes.now) end.block) }
    ensures room { length scratch.new.cells ≡ length scratch.old.cells }
{
    match frame_at(bytes, at, info, scratch.cells.as_mut_slice()) {
        Ok(end) => Ok(end),
        Err(rule) => Err(broken(rule, at)),
    }
}

/// The samples of a channel of a frame whose block has so many, as `read_frame` left them.
pub fn channel(scratch: &Scratch, block: u32, channel: usize) -> &[i32]
    requires { (channel + 1) * block ≤ length scratch.now.cells }
    ensures cells { result.now ≡ part scratch.now.cells (channel * block) block }
    ensures list { (channels : ℕ) → channel < channels
        → result.now ≡ samples_of (first_chunks block channels scratch.now.cells) channel }
{
    let cells = scratch.cells.as_slice();
    // that there are so many is what keeps the product within its type
    let fits = block as usize <= cells.len();
    prove!(fits);
    let start = channel * block as usize;
    cells.split_at(start).1.split_at(block as usize).0
}

/// The frame that begins at a place, its samples in the cells.
fn frame_at(bytes: &[u8], at: usize, info: &Info, cells: &mut [i32]) -> Result<FrameEnd, FlacRule>
    requires place { at ≤ length bytes.now }
    requires some { 1 ≤ info.now.channels }
    requires few { info.now.channels ≤ MOST_CHANNELS }
    requires low { LEAST_DEPTH ≤ info.now.depth }
    requires high { info.now.depth ≤ GREATEST_DEPTH }
    requires room { info.now.channels * GREATEST_BLOCK ≤ length cells.old }
    ensures comes { Comes (frame_in cells.new info.now.channels at)
        (Frame info.now (drop at bytes.now)) result }
    ensures next { IfOk result (λ end. (at < end.next) × (end.next ≤ length bytes.now)) }
    ensures block { IfOk result (λ end. (1 ≤ end.block) × (end.block ≤ GREATEST_BLOCK)) }
    ensures headed { IfOk result (λ end. HasBlock info.now (drop at bytes.now) end.block) }
{
    match header_at(bytes, at, info) {
        Ok(header) => body_at(bytes, at, info, &header, cells),
        Err(rule) => Err(rule),
    }
}

/// What follows the header of a frame.
fn body_at(
    bytes: &[u8],
    at: usize,
    info: &Info,
    header: &Header,
    cells: &mut [i32],
) -> Result<FrameEnd, FlacRule>
    requires low { LEAST_DEPTH ≤ info.now.depth }
    requires high { info.now.depth ≤ GREATEST_DEPTH }
    requires fits { IsFit info.now bytes.now at header.now }
    requires room { info.now.channels * GREATEST_BLOCK ≤ length cells.old }
    ensures comes { Comes (frame_in cells.new info.now.channels at)
        (Body info.now (drop at bytes.now) (header_of header.now)) result }
    ensures next { IfOk result (λ end. (at < end.next) × (end.next ≤ length bytes.now)) }
    ensures block { IfOk result (λ end. end.block ≡ header.now.block) }
{
    let mut reader = BitReader::at(bytes, at + header.length);
    match read_sound(&mut reader, header, info, cells) {
        Ok(()) => {}
        Err(rule) => return Err(rule),
    }
    match read_footer(&mut reader, bytes, at) {
        Ok(next) => Ok(FrameEnd {
            next,
            block: header.block,
        }),
        Err(rule) => Err(rule),
    }
}

/// Reads the footer of a frame that begins at a place, zeros to a whole byte and the check, and
/// tells where both end.
fn read_footer(reader: &mut BitReader, bytes: &[u8], at: usize) -> Result<usize, FlacRule>
    requires place { at ≤ length bytes.now }
    requires of_bytes { source reader.old ≡ bytes.now }
    requires behind { length (left reader.old) ≤ length (bits (drop at bytes.now)) }
    ensures gives { Gives (λ end. end - at) result
        (footer_at (drop at bytes.now) (left reader.old)) }
    ensures next { IfOk result (λ end. (at < end) × (end ≤ length bytes.now)) }
{
    if reader.align() {
        read_check(reader, bytes, at)
    } else {
        Err(FlacRule::FrameCheck)
    }
}

/// Reads the check over all bytes of a frame before it.
#[tactic(auto, unfolding(crate::specs::Frames::check_at))]
fn read_check(reader: &mut BitReader, bytes: &[u8], at: usize) -> Result<usize, FlacRule>
    requires place { at ≤ length bytes.now }
    requires of_bytes { source reader.old ≡ bytes.now }
    requires whole { TakesBytes (bits (drop at bytes.now)) (left reader.old) }
    ensures gives { Gives (λ end. end - at) result
        (check_at (drop at bytes.now) (left reader.old)) }
    ensures next { IfOk result (λ end. (at < end) × (end ≤ length bytes.now)) }
{
    let end = end_of(reader, bytes, at);
    let check = reader.take(16)?;
    holds(check == check_over(bytes, at, end), FlacRule::FrameCheck)?;
    Ok(end + 2)
}

/// The check over the bytes from one place up to another.
fn check_over(bytes: &[u8], from: usize, to: usize) -> u32
    requires start { from ≤ to }
    requires end { to ≤ length bytes.now }
    ensures { result ≡ crc16 (take (to - from) (drop from bytes.now)) }
{
    u32::from(crc16(&bytes[from..to]))
}
