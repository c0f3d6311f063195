//! The samples of a FLAC file, in lists.
ghost use Rattle.std.specs.Prelude.{◌≡◌, ◌≤◌, ◌*◌, length, map, replicate, [], IfOk, IfErr, OnOk};
ghost use Rattle.std.specs.Simd.{first_chunks};
ghost use Rattle.lib_base.specs.declared.limits.TheConstants.{LEAST_DEPTH, GREATEST_DEPTH, MOST_CHANNELS};
ghost use Rattle.file_model.specs.FlacFile.{IsFlac};
ghost use Rattle.flac_stream.specs.Answers.{IsRefusalOf};
ghost use Rattle.flac_stream.specs.Blocks.{IsOpening};
ghost use Rattle.flac_stream.specs.Frames.{IsStarted};
ghost use Rattle.flac_stream.specs.Hearing.{joined, AreDecoded};

use crate::ending::check_end;
use crate::files::scratch_size_for;
use crate::frames::{Frames, hear_next};
use crate::opening::{Opening, read_opening};
use file_model::Info;
use flac_frames::GREATEST_BLOCK;
use lib_base::{Memory, PcmSound, Refused, Scratch, Sound};
use std::alloc::Global;

/// Frames that were heard, and the samples of each channel.
#[derive(Drop)]
struct Decoded {
    heard: Frames,
    lists: Vec<Vec<i32>>,
}

/// Decodes a FLAC file: all its samples, in lists. What is none is broken by the first rule that it
/// breaks, at its place.
///
/// Each frame is decoded once, and the lists grow as frames come. `read` and a sound over the bytes
/// take no memory for samples.
///
/// # Errors
///
/// `Broken` with the rule and its place, a byte offset; `Memory` says nothing of the bytes.
pub fn decode(alloc: Global, bytes: &[u8]) -> Result<PcmSound, Refused>
    ensures ok { IfOk result (λ sound. IsFlac bytes.now (record {
      depth = ⟦<PcmSound as Sound>⟧.depth sound;
      frames = ⟦<PcmSound as Sound>⟧.frames sound;
      lists = ⟦<PcmSound as Sound>⟧.lists sound;
    })) }
    ensures err { IfErr result (λ refused. IsRefusalOf bytes.now refused) }
{
    let opening = read_opening(alloc, bytes)?;
    let size = scratch_size_for(opening.info.channels);
    let mut scratch = Scratch::new(alloc, size)?;
    let decoded = decode_frames(
        alloc,
        bytes,
        opening.blocks.end,
        &opening.info,
        &mut scratch,
    )?;
    close(bytes, opening, decoded)
}

/// Decodes the frames from a place up to the file's end.
fn decode_frames(
    alloc: Global,
    bytes: &[u8],
    start: usize,
    info: &Info,
    scratch: &mut Scratch,
) -> Result<Decoded, Refused>
    requires place { start ≤ length bytes.now }
    requires started { IsStarted bytes.now info.now start }
    requires some { 1 ≤ info.now.channels }
    requires few { info.now.channels ≤ MOST_CHANNELS }
    requires low { LEAST_DEPTH ≤ info.now.depth }
    requires high { info.now.depth ≤ GREATEST_DEPTH }
    requires room { info.now.channels * GREATEST_BLOCK ≤ length scratch.old.cells }
    ensures ok { IfOk result (λ decoded. AreDecoded info.now bytes.now start (length bytes.now)
        decoded.heard (map (λ v. v.items) decoded.lists.items)) }
    ensures err { IfErr result (λ refused. IsRefusalOf bytes.now refused) }
{
    let mut heard = Frames::none(alloc, info);
    let mut lists = empty_lists(alloc, info.channels)?;
    let mut at = start;
    'frames: while at < bytes.len() {
        let end = match hear_next(bytes, at, info, &mut heard, scratch) {
            Ok(end) => end,
            Err(refused) => return Err(refused),
        };
        match add_frame(&mut lists, scratch, end.block) {
            Ok(()) => at = end.next,
            Err(_) => return Err(Refused::Memory),
        }
    }
    Ok(Decoded { heard, lists })
}

/// So many empty lists.
fn empty_lists(alloc: Global, count: u32) -> Result<Vec<Vec<i32>>, Memory>
    ensures { IfOk result (λ lists. map (λ v. v.items) lists.items ≡ replicate count []) }
{
    let mut lists = Vec::new(alloc);
    for _ in 0..count {
        lists.push(Vec::new(alloc))?;
    }
    Ok(lists)
}

/// Adds the channels of a frame to their lists.
fn add_frame(lists: &mut Vec<Vec<i32>>, scratch: &Scratch, block: u32) -> Result<(), Memory>
    requires { length lists.old.items * block ≤ length scratch.now.cells }
    ensures { OnOk result (map (λ v. v.items) lists.new.items
        ≡ joined (map (λ v. v.items) lists.old.items)
        (first_chunks block (length lists.old.items) scratch.now.cells)) }
{
    add_block(
        lists.as_mut_slice(),
        scratch.cells.as_slice(),
        block as usize,
    )
}

/// Adds the channels of a block, which stand in the cells one after another, to their lists.
fn add_block(lists: &mut [Vec<i32>], cells: &[i32], block: usize) -> Result<(), Memory>
    requires { length lists.old * block ≤ length cells.now }
    ensures joined { OnOk result (map (λ v. v.items) lists.new ≡ joined (map (λ v. v.items) lists.old)
        (first_chunks block (length lists.old) cells.now)) }
    ensures as_many { OnOk result (length lists.new ≡ length lists.old) }
{
    match lists.split_first_mut() {
        None => Ok(()),
        Some((list, others)) => {
            let (samples, behind) = cells.split_at(block);
            list.extend_from_slice(samples)?;
            add_block(others, behind, block)
        }
    }
}

/// Tries what STREAMINFO says of all frames.
fn close(bytes: &[u8], opening: Opening, decoded: Decoded) -> Result<PcmSound, Refused>
    requires opened { IsOpening bytes.now opening.info opening.blocks.items.items
        opening.blocks.comments opening.blocks.end }
    requires decoded { AreDecoded opening.info bytes.now opening.blocks.end (length bytes.now)
        decoded.heard (map (λ v. v.items) decoded.lists.items) }
    ensures ok { IfOk result (λ sound. IsFlac bytes.now (record {
      depth = ⟦<PcmSound as Sound>⟧.depth sound;
      frames = ⟦<PcmSound as Sound>⟧.frames sound;
      lists = ⟦<PcmSound as Sound>⟧.lists sound;
    })) }
    ensures err { IfErr result (λ refused. IsRefusalOf bytes.now refused) }
{
    let Decoded { heard, lists } = decoded;
    let Frames { count, digest, .. } = heard;
    match check_end(&opening.info, count, digest) {
        Ok(()) => Ok(PcmSound::new(opening.info.depth, lists)),
        Err(broken) => Err(Refused::Broken(broken)),
    }
}
