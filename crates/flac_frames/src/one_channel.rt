//! One channel of a frame that is known to be whole (RFC 9639 section 9).
ghost use Rattle.std.specs.Prelude.{◌≡◌, ◌≤◌, ◌<◌, ◌+◌, ◌*◌, ℕ, ℤ, Bool, List, Ok, length, drop, replicate, IfSome, IsSomeAnd, IsOkAnd};
ghost use Rattle.bit_codec.specs.Reader.{left};
ghost use Rattle.lib_base.specs.Sounds.{part, samples_of};
ghost use Rattle.lib_base.specs.declared.limits.TheConstants.{LEAST_DEPTH, GREATEST_DEPTH, MOST_CHANNELS};
ghost use Rattle.file_model.specs.FlacFrame.{FlacFrame, Channels, Body, Frame};
ghost use Rattle.flac_frames.specs.Frames.{HasBlock, Sound};
ghost use Rattle.flac_frames.specs.Headers.{header_of, IsFit};

use crate::channels::read_pair_at;
use crate::frame::GREATEST_BLOCK;
use crate::header::{Header, header_at};
use crate::subframe::{read_channel, skip_channel};
use bit_codec::BitReader;
use file_model::{FlacRule, Info};
use lib_base::Scratch;

/// Reads one channel of the frame that begins at a place, its samples into the scratch, where
/// `channel` shows them. It tells how many each channel has.
///
/// It is for a frame that was read before, so no more of it is read than the channel wants. Where
/// each channel stands on its own, those before it are not restored and those behind it not read;
/// and the check over the frame is not tried again. Of bytes that are no frame it may tell
/// anything.
pub fn read_one_channel(
    bytes: &[u8],
    at: usize,
    info: &Info,
    index: usize,
    scratch: &mut Scratch,
) -> Option<u32>
    requires place { at ≤ length bytes.now }
    requires few { info.now.channels ≤ MOST_CHANNELS }
    requires low { LEAST_DEPTH ≤ info.now.depth }
    requires high { info.now.depth ≤ GREATEST_DEPTH }
    requires index { index < info.now.channels }
    requires room { info.now.channels * GREATEST_BLOCK ≤ length scratch.old.cells }
    ensures frame { (frame : FlacFrame) → Frame info.now (drop at bytes.now) (Ok frame)
        → IsSomeAnd result (λ block. part scratch.new.cells (index * block) block
        ≡ samples_of frame.lists index) }
    ensures headed { IfSome result (λ block. HasBlock info.now (drop at bytes.now) block) }
    ensures block { IfSome result (λ block. block ≤ GREATEST_BLOCK) }
    ensures room { length scratch.new.cells ≡ length scratch.old.cells }
{
    let header = match header_at(bytes, at, info) {
        Ok(header) => header,
        Err(_) => return None,
    };
    match read_behind(
        bytes,
        at,
        info,
        &header,
        index,
        scratch.cells.as_mut_slice(),
    ) {
        Ok(()) => Some(header.block),
        Err(_) => None,
    }
}

/// Reads one channel of a frame, behind its header.
fn read_behind(
    bytes: &[u8],
    at: usize,
    info: &Info,
    header: &Header,
    index: usize,
    cells: &mut [i32],
) -> Result<(), FlacRule>
    requires few { info.now.channels ≤ MOST_CHANNELS }
    requires low { LEAST_DEPTH ≤ info.now.depth }
    requires high { info.now.depth ≤ GREATEST_DEPTH }
    requires index { index < info.now.channels }
    requires fits { IsFit info.now bytes.now at header.now }
    requires room { info.now.channels * GREATEST_BLOCK ≤ length cells.old }
    ensures { (frame : FlacFrame)
        → Body info.now (drop at bytes.now) (header_of header.now) (Ok frame)
        → IsOkAnd result (λ _. part cells.new (index * header.now.block) header.now.block
        ≡ samples_of frame.lists index) }
{
    let mut reader = BitReader::at(bytes, at + header.length);
    read_one(&mut reader, header, info, index, cells)
}

/// Reads one channel of a sound, to where it stands among all.
fn read_one(
    reader: &mut BitReader,
    header: &Header,
    info: &Info,
    index: usize,
    cells: &mut [i32],
) -> Result<(), FlacRule>
    requires few { info.now.channels ≤ MOST_CHANNELS }
    requires low { LEAST_DEPTH ≤ info.now.depth }
    requires high { info.now.depth ≤ GREATEST_DEPTH }
    requires index { index < info.now.channels }
    requires block { header.now.block ≤ GREATEST_BLOCK }
    requires pair { IfSome header.now.stereo (λ _. info.now.channels ≡ 2) }
    requires room { info.now.channels * header.now.block ≤ length cells.old }
    ensures { (lists : List (List ℤ)) (rest : List Bool) → Sound header.now.block info.now.channels
        info.now.depth header.now.stereo (left reader.old) (Ok (lists, rest))
        → IsOkAnd result (λ _. part cells.new (index * header.now.block) header.now.block
        ≡ samples_of lists index) }
{
    let block = header.block as usize;
    match header.stereo {
        None => read_own_at(reader, index, info.depth, block, cells),
        Some(kind) => read_pair_at(reader, kind, info.depth, block, cells),
    }
}

/// Reads a channel that stands on its own, behind so many others, to where it stands among all.
fn read_own_at(
    reader: &mut BitReader,
    index: usize,
    depth: u32,
    block: usize,
    cells: &mut [i32],
) -> Result<(), FlacRule>
    requires low { 1 ≤ depth }
    requires high { depth ≤ 25 }
    requires block { block ≤ GREATEST_BLOCK }
    requires few { index < 6 }
    requires room { (index + 1) * block ≤ length cells.old }
    ensures { (channels : ℕ) (lists : List (List ℤ)) (rest : List Bool) → index < channels
        → Channels block (replicate channels depth) (left reader.old) (Ok (lists, rest))
        → IsOkAnd result (λ _. part cells.new (index * block) block ≡ samples_of lists index) }
{
    let (_, behind) = cells.split_at_mut(index * block);
    let (own, _) = behind.split_at_mut(block);
    match read_own(reader, index, depth, own) {
        Ok(()) => Ok(()),
        Err(rule) => Err(rule),
    }
}

/// Reads a channel that stands on its own, behind so many others.
fn read_own(
    reader: &mut BitReader,
    index: usize,
    depth: u32,
    own: &mut [i32],
) -> Result<(), FlacRule>
    requires low { 1 ≤ depth }
    requires high { depth ≤ 25 }
    requires block { length own.old ≤ GREATEST_BLOCK }
    ensures { (channels : ℕ) (lists : List (List ℤ)) (rest : List Bool) → index < channels
        → Channels (length own.old) (replicate channels depth) (left reader.old) (Ok (lists, rest))
        → IsOkAnd result (λ _. own.new ≡ samples_of lists index) }
{
    if index == 0 {
        return read_channel(reader, depth, own);
    }
    match skip_channel(reader, depth, own) {
        Ok(()) => read_own(reader, index - 1, depth, own),
        Err(rule) => Err(rule),
    }
}
