//! The channels of a frame, one after another in the cells (RFC 9639 sections 4.2 and 9.2).
ghost use Rattle.std.specs.Prelude.{◌≡◌, ◌≤◌, ◌+◌, ◌*◌, ℕ, [], ◌∷◌, Some, length, replicate, IfSome, OnOk};
ghost use Rattle.std.specs.Simd.{first_chunks};
ghost use Rattle.lib_base.specs.declared.limits.TheConstants.{LEAST_DEPTH, GREATEST_DEPTH};
ghost use Rattle.bit_codec.specs.Reader.{left, source};
ghost use Rattle.file_model.specs.FlacFrame.{Channels};
ghost use Rattle.file_model.specs.Pairs.{first_depth, second_depth};
ghost use Rattle.flac_frames.specs.Answers.{Comes};
ghost use Rattle.flac_frames.specs.Frames.{Sound};

use crate::frame::GREATEST_BLOCK;
use crate::header::Header;
use crate::subframe::read_channel;
use bit_codec::BitReader;
use file_model::{FlacRule, Info, Stereo};
use flac_predict::undo_stereo;

/// Reads the channels of a frame to the start of the cells, one after another; left and right where
/// two channels stand for them.
pub(crate) fn read_sound(
    reader: &mut BitReader,
    header: &Header,
    info: &Info,
    cells: &mut [i32],
) -> Result<(), FlacRule>
    requires low { LEAST_DEPTH ≤ info.now.depth }
    requires high { info.now.depth ≤ GREATEST_DEPTH }
    requires block { header.now.block ≤ GREATEST_BLOCK }
    requires pair { IfSome header.now.stereo (λ _. info.now.channels ≡ 2) }
    requires room { info.now.channels * header.now.block ≤ length cells.old }
    ensures comes { let header = header.now in let info = info.now in
        Comes (λ _. (first_chunks header.block info.channels cells.new, left reader.new))
        (Sound header.block info.channels info.depth header.stereo (left reader.old)) result }
    ensures later { OnOk result (length (left reader.new) ≤ length (left reader.old)) }
    ensures whole { source reader.new ≡ source reader.old }
{
    let block = header.block as usize;
    match header.stereo {
        None => read_independent(reader, info.channels as usize, info.depth, block, cells),
        Some(kind) => read_pair_at(reader, kind, info.depth, block, cells),
    }
}

/// Reads so many channels, each on its own, to the start of the cells.
fn read_independent(
    reader: &mut BitReader,
    channels: usize,
    depth: u32,
    block: usize,
    cells: &mut [i32],
) -> Result<(), FlacRule>
    requires low { 1 ≤ depth }
    requires high { depth ≤ 25 }
    requires block { block ≤ GREATEST_BLOCK }
    requires room { channels * block ≤ length cells.old }
    ensures comes { Comes (λ _. (first_chunks block channels cells.new, left reader.new))
        (Channels block (replicate channels depth) (left reader.old)) result }
    ensures later { OnOk result (length (left reader.new) ≤ length (left reader.old)) }
    ensures whole { source reader.new ≡ source reader.old }
{
    if channels == 0 {
        return Ok(());
    }
    let (first, others) = cells.split_at_mut(block);
    match read_channel(reader, depth, first) {
        Ok(()) => {}
        Err(rule) => return Err(rule),
    }
    match read_independent(reader, channels - 1, depth, block, others) {
        Ok(()) => Ok(()),
        Err(rule) => Err(rule),
    }
}

/// Reads left and right from a pair of channels, to the start of the cells.
pub(crate) fn read_pair_at(
    reader: &mut BitReader,
    kind: Stereo,
    depth: u32,
    block: usize,
    cells: &mut [i32],
) -> Result<(), FlacRule>
    requires low { 1 ≤ depth }
    requires high { depth ≤ GREATEST_DEPTH }
    requires block { block ≤ GREATEST_BLOCK }
    requires room { 2 * block ≤ length cells.old }
    ensures comes { (channels : ℕ) → Comes (λ _. (first_chunks block 2 cells.new, left reader.new))
        (Sound block channels depth (Some kind) (left reader.old)) result }
    ensures later { OnOk result (length (left reader.new) ≤ length (left reader.old)) }
    ensures whole { source reader.new ≡ source reader.old }
{
    let (first, behind) = cells.split_at_mut(block);
    let (second, _) = behind.split_at_mut(block);
    match read_pair(reader, kind, depth, first, second) {
        Ok(()) => Ok(()),
        Err(rule) => Err(rule),
    }
}

/// Reads left and right from a pair of channels.
fn read_pair(
    reader: &mut BitReader,
    kind: Stereo,
    depth: u32,
    first: &mut [i32],
    second: &mut [i32],
) -> Result<(), FlacRule>
    requires low { 1 ≤ depth }
    requires high { depth ≤ GREATEST_DEPTH }
    requires block { length first.old ≤ GREATEST_BLOCK }
    requires equal { length second.old ≡ length first.old }
    ensures comes { (channels : ℕ) → Comes (λ _. (first.new ∷ second.new ∷ [], left reader.new))
        (Sound (length first.old) channels depth (Some kind) (left reader.old)) result }
    ensures later { OnOk result (length (left reader.new) ≤ length (left reader.old)) }
    ensures whole { source reader.new ≡ source reader.old }
{
    match read_channel(reader, first_depth(kind, depth), first) {
        Ok(()) => {}
        Err(rule) => return Err(rule),
    }
    match read_channel(reader, second_depth(kind, depth), second) {
        Ok(()) => {}
        Err(rule) => return Err(rule),
    }
    match undo_stereo(kind, first, second, depth) {
        Ok(()) => Ok(()),
        Err(_) => Err(FlacRule::OutOfRange),
    }
}

/// The bits of a number in the first channel of a pair.
fn first_depth(kind: Stereo, depth: u32) -> u32
    requires { depth ≤ GREATEST_DEPTH }
    ensures { result ≡ first_depth kind depth }
{
    match kind {
        Stereo::SideRight => depth + 1,
        Stereo::LeftSide | Stereo::MidSide => depth,
    }
}

/// The bits of a number in the second one.
fn second_depth(kind: Stereo, depth: u32) -> u32
    requires { depth ≤ GREATEST_DEPTH }
    ensures { result ≡ second_depth kind depth }
{
    match kind {
        Stereo::SideRight => depth,
        Stereo::LeftSide | Stereo::MidSide => depth + 1,
    }
}
