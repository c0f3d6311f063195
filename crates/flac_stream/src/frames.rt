//! The frames of a file, one after another (RFC 9639 section 9).
ghost use Rattle.std.specs.Prelude.{◌≡◌, ◌≤◌, ◌<◌, ◌+◌, ◌*◌, ◌/◌, ◌++◌, ◌∷◌, [], ℕ, List, not, nat_le, length, drop, IfOk, IfErr, OnOk};
ghost use Rattle.lib_base.specs.declared.limits.TheConstants.{LEAST_DEPTH, GREATEST_DEPTH, MOST_CHANNELS};
ghost use Rattle.file_model.specs.FlacFile.{NextFrame};
ghost use Rattle.flac_frames.specs.Answers.{Answers};
ghost use Rattle.flac_frames.specs.Frames.{frame_in};
ghost use Rattle.flac_stream.specs.Answers.{IsRefusalOf};
ghost use Rattle.flac_stream.specs.Frames.{bytes_for, FedFrame, IsStarted};
ghost use Rattle.flac_stream.specs.Hearing.{HaveHeard, HearNone, HearsMore};

use crate::digest::SoundDigest;
use crate::rules::breaks;
use file_model::{FlacRule, Info};
use flac_frames::{FrameEnd, GREATEST_BLOCK, read_frame, read_header};
use lib_base::{Broken, MOST_SAMPLES, Memory, Refused, Scratch};
use std::alloc::Global;

/// Where a frame begins, and how many samples of each channel stand before it.
#[derive(Clone, Copy, Debug, PartialEq, Eq)]
pub(crate) struct FramePlace {
    pub(crate) at: usize,
    pub(crate) first: u64,
}

/// The frames of a file: their places, the samples of each channel, and the MD5 of all samples.
#[derive(Drop)]
pub(crate) struct Frames {
    pub(crate) places: Vec<FramePlace>,
    pub(crate) count: u64,
    pub(crate) digest: SoundDigest,
}

impl Frames {
    /// No frame yet.
    pub(crate) fn none(alloc: Global, info: &Info) -> Frames
        ensures heard { (bytes : List ℕ) (start : ℕ) → start ≤ length bytes
            → HearNone info.now bytes start result }
        ensures none { result.count ≡ 0 }
    {
        let digest = SoundDigest::new(alloc, &info.md5);
        Frames {
            places: Vec::new(alloc),
            count: 0,
            digest,
        }
    }

    /// One frame more, of a place and a block of so many samples, as they stand in the scratch.
    fn add(
        &mut self,
        info: &Info,
        scratch: &Scratch,
        place: FramePlace,
        block: u32,
    ) -> Result<(), Memory>
        requires depth { info.now.depth ≤ GREATEST_DEPTH }
        requires room { info.now.channels * block ≤ length scratch.now.cells }
        requires read { self.old.count + block ≤ MOST_SAMPLES }
        ensures places { OnOk result (self.new.places.items ≡ self.old.places.items ++ place ∷ []) }
        ensures count { OnOk result (self.new.count ≡ self.old.count + block) }
        ensures fed { OnOk result (FedFrame (bytes_for info.now.depth) block info.now.channels
            scratch.now.cells self.old.digest self.new.digest) }
    {
        let count = bytes_for(info.depth);
        self.digest
            .feed(scratch, block, info.channels as usize, count)?;
        self.places.push(place)?;
        self.count += u64::from(block);
        Ok(())
    }
}

/// Reads the frames from a place up to the file's end.
pub(crate) fn read_frames(
    alloc: Global,
    bytes: &[u8],
    start: usize,
    info: &Info,
    scratch: &mut Scratch,
) -> Result<Frames, Refused>
    requires place { start ≤ length bytes.now }
    requires started { IsStarted bytes.now info.now start }
    requires some { 1 ≤ info.now.channels }
    requires few { info.now.channels ≤ MOST_CHANNELS }
    requires low { LEAST_DEPTH ≤ info.now.depth }
    requires high { info.now.depth ≤ GREATEST_DEPTH }
    requires room { info.now.channels * GREATEST_BLOCK ≤ length scratch.old.cells }
    ensures ok { IfOk result (HaveHeard info.now bytes.now start (length bytes.now)) }
    ensures err { IfErr result (λ refused. IsRefusalOf bytes.now refused) }
{
    let mut heard = Frames::none(alloc, info);
    let mut at = start;
    'frames: while at < bytes.len() {
        match hear_next(bytes, at, info, &mut heard, scratch) {
            Ok(end) => at = end.next,
            Err(refused) => return Err(refused),
        }
    }
    Ok(heard)
}

/// Reads the frame at a place, behind frames that were heard, and hears it: its samples stand in
/// the scratch, as `channel` shows them.
pub(crate) fn hear_next(
    bytes: &[u8],
    at: usize,
    info: &Info,
    heard: &mut Frames,
    scratch: &mut Scratch,
) -> Result<FrameEnd, Refused>
    requires place { at < length bytes.now }
    requires some { 1 ≤ info.now.channels }
    requires few { info.now.channels ≤ MOST_CHANNELS }
    requires low { LEAST_DEPTH ≤ info.now.depth }
    requires high { info.now.depth ≤ GREATEST_DEPTH }
    requires read { heard.old.count ≤ MOST_SAMPLES }
    requires room { info.now.channels * GREATEST_BLOCK ≤ length scratch.old.cells }
    ensures heard { let info = info.now in IfOk result (λ end. HearsMore info bytes.now at end.next
        (frame_in scratch.new.cells info.channels at end) heard.old heard.new) }
    ensures next { IfOk result (λ end. (at < end.next) × (end.next ≤ length bytes.now)) }
    ensures read { IfOk result (λ _. heard.new.count ≤ MOST_SAMPLES) }
    ensures fits { IfOk result (λ end. info.now.channels * end.block ≤ length scratch.new.cells) }
    ensures room { length scratch.new.cells ≡ length scratch.old.cells }
    ensures err { IfErr result (λ refused. (start : ℕ) → IsStarted bytes.now info.now start
        → HaveHeard info.now bytes.now start at heard.old → IsRefusalOf bytes.now refused) }
{
    let end = match read_next(bytes, at, info, heard.count, scratch) {
        Ok(end) => end,
        Err(broken) => return Err(Refused::Broken(broken)),
    };
    let first = heard.count;
    match heard.add(info, scratch, FramePlace { at, first }, end.block) {
        Ok(()) => Ok(end),
        Err(_) => Err(Refused::Memory),
    }
}

/// How many bytes a sample takes.
fn bytes_for(depth: u32) -> usize
    requires { depth ≤ GREATEST_DEPTH }
    ensures value { result ≡ bytes_for depth }
    ensures few { result ≤ 4 }
{
    (depth as usize + 7) / 8
}

/// Reads the frame at a place, which so many samples of each channel stand before. How many samples
/// are read is tried between its header and its rest.
pub(crate) fn read_next(
    bytes: &[u8],
    at: usize,
    info: &Info,
    before: u64,
    scratch: &mut Scratch,
) -> Result<FrameEnd, Broken>
    requires place { at ≤ length bytes.now }
    requires some { 1 ≤ info.now.channels }
    requires few { info.now.channels ≤ MOST_CHANNELS }
    requires low { LEAST_DEPTH ≤ info.now.depth }
    requires high { info.now.depth ≤ GREATEST_DEPTH }
    requires read { before ≤ MOST_SAMPLES }
    requires room { info.now.channels * GREATEST_BLOCK ≤ length scratch.old.cells }
    ensures frame { Answers (frame_in scratch.new.cells info.now.channels at) at
        (NextFrame info.now before (drop at bytes.now)) result }
    ensures next { IfOk result (λ end. (at < end.next) × (end.next ≤ length bytes.now)) }
    ensures block { IfOk result (λ end. (1 ≤ end.block) × (end.block ≤ GREATEST_BLOCK)) }
    ensures read { IfOk result (λ end. before + end.block ≤ MOST_SAMPLES) }
    ensures room { length scratch.new.cells ≡ length scratch.old.cells }
{
    let header = match read_header(bytes, at, info) {
        Ok(header) => header,
        Err(broken) => return Err(broken),
    };
    if is_too_much(info.channels, before, header.block) {
        return Err(breaks(FlacRule::TooManySamples, at));
    }
    read_frame(bytes, at, info, scratch)
}

/// Whether more samples than a file can have are those before a block and the block's.
fn is_too_much(channels: u32, before: u64, block: u32) -> bool
    requires few { channels ≤ MOST_CHANNELS }
    requires read { before ≤ MOST_SAMPLES }
    requires block { block ≤ GREATEST_BLOCK }
    ensures { result ≡ not (nat_le (channels * (before + block)) MOST_SAMPLES) }
{
    let total = u64::from(channels) * (before + u64::from(block));
    total > MOST_SAMPLES
}
