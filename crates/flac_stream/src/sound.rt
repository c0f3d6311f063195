//! The sound of a FLAC file, read from its bytes.
ghost use Rattle.std.specs.Prelude.{◌≡◌, ◌≤◌, ◌<◌, ◌+◌, ◌-◌, ◌*◌, ◌^◌, ◌++◌, ℕ, length, take, min, slice_index_or};
ghost use Rattle.file_model.specs.FlacFile.{IsFlac};
ghost use Rattle.flac_frames.specs.declared.frame.TheConstants.{GREATEST_BLOCK};
ghost use Rattle.file_model.specs.Pcm.{Pcm};
ghost use Rattle.lib_base.specs.Sounds.{IsSound, part, samples_of};
ghost use Rattle.flac_stream.specs.Shape.{IsReadOf};
ghost use Rattle.flac_stream.specs.Sounding.{HasLists, HasLists-prop, AreFrames, IsInCells, samples_before};

use crate::files::{FlacFile, scratch_size_for};
use crate::frames::FramePlace;
use flac_frames::{GREATEST_BLOCK, channel, read_one_channel};
use lib_base::{Scratch, Sound};

/// The sound of a FLAC file. It holds no sample: of the frames that hold a part, the channel that
/// is asked for is decoded again each time.
#[derive(Clone, Copy)]
pub struct FlacSound<'a> {
    bytes: &'a [u8],
    file: &'a FlacFile,
    ghost held: { HasLists bytes.now } by { HasLists-prop bytes.now },
    ghost frames: { AreFrames bytes.now file.now held.0 },
    ghost sound: { IsSound held.0 file.now.info.depth file.now.frames },
}

impl<'a> FlacSound<'a> {
    /// The sound of the FLAC file that `read` gave of these bytes. It takes no memory.
    pub fn over(bytes: &'a [u8], file: &'a FlacFile) -> FlacSound<'a>
        requires { IsReadOf bytes.now file.now }
        ensures lists { (sound : Pcm) → IsFlac bytes.now sound
            → ⟦<FlacSound<'a> as Sound>⟧.lists result ≡ sound.lists }
        ensures depth { ⟦<FlacSound<'a> as Sound>⟧.depth result ≡ file.now.info.depth }
        ensures frames { ⟦<FlacSound<'a> as Sound>⟧.frames result ≡ file.now.frames }
        ensures scratch { ⟦<FlacSound<'a> as Sound>⟧.scratch_size result
            ≡ file.now.info.channels * GREATEST_BLOCK }
    {
        FlacSound { bytes, file }
    }

    /// Writes the part of a channel that begins at a sample, frame by frame.
    fn fill_part(&self, index: usize, start: u64, out: &mut [i32], scratch: &mut Scratch)
        requires channel { index < self.now.file.now.info.channels }
        requires inside { start + length out.old ≤ self.now.file.now.frames }
        requires room { self.now.file.now.info.channels * GREATEST_BLOCK
            ≤ length scratch.old.cells }
        ensures samples { out.new
            ≡ part (samples_of self.now.held.0 index) start (length out.old) }
        ensures room { length scratch.new.cells ≡ length scratch.old.cells }
    {
        if out.len() == 0 {
            return;
        }
        let mut frame = frame_of(self.file, start);
        let mut done = 0;
        'frames: while done < out.len() {
            done = self.fill_from_frame(frame, index, start, out, done, scratch);
            frame += 1;
        }
    }

    /// Writes what a frame holds of a part, behind the samples of it that are written. It tells how
    /// many then are.
    fn fill_from_frame(
        &self,
        frame: usize,
        index: usize,
        start: u64,
        out: &mut [i32],
        done: usize,
        scratch: &mut Scratch,
    ) -> usize
        requires channel { index < self.now.file.now.info.channels }
        requires room { self.now.file.now.info.channels * GREATEST_BLOCK
            ≤ length scratch.old.cells }
        requires frame { frame < length self.now.file.now.places }
        requires inside { start + length out.old ≤ self.now.file.now.frames }
        requires done { done ≤ length out.old }
        requires behind { samples_before self.now.file.now frame ≤ start + done }
        requires before { start + done ≤ samples_before self.now.file.now (frame + 1) }
        requires written { take done out.old
            ≡ part (samples_of self.now.held.0 index) start done }
        ensures written { take result out.new
            ≡ part (samples_of self.now.held.0 index) start result }
        ensures within { result ≤ length out.old }
        ensures next { result < length out.old
            → start + result ≡ samples_before self.now.file.now (frame + 1) }
        ensures long { length out.new ≡ length out.old }
        ensures room { length scratch.new.cells ≡ length scratch.old.cells }
    {
        let (first, block) = self.decode(frame, index, scratch);
        let from = (start + done as u64 - first) as usize;
        done + copy_behind(channel(scratch, block, index), from, out, done)
    }

    /// Decodes a channel of a frame. It tells how many samples of each channel stand before the
    /// frame, and how many it has.
    fn decode(&self, frame: usize, index: usize, scratch: &mut Scratch) -> (u64, u32)
        requires channel { index < self.now.file.now.info.channels }
        requires room { self.now.file.now.info.channels * GREATEST_BLOCK
            ≤ length scratch.old.cells }
        requires frame { frame < length self.now.file.now.places }
        ensures first { result.0 ≡ samples_before self.now.file.now frame }
        ensures cells { IsInCells self.now.file.now self.now.held.0 scratch.new.cells
            frame index result.1 }
        ensures room { length scratch.new.cells ≡ length scratch.old.cells }
    {
        let place = place_of(self.file, frame);
        let info = self.file.info();
        match read_one_channel(self.bytes, place.at, &info, index, scratch) {
            Some(block) => (place.first, block),
            None => unreachable!(),
        }
    }
}

impl<'a> Sound for FlacSound<'a> {
    ghost lists = { λ s. s.held.0 };

    ghost depth = { λ s. s.file.now.info.depth };

    ghost frames = { λ s. s.file.now.frames };

    ghost scratch_size = { λ s. s.file.now.info.channels * GREATEST_BLOCK };

    ghost sound = { λ s. s.sound };

    fn channels(&self) -> usize {
        self.file.info().channels as usize
    }

    fn depth(&self) -> u32 {
        self.file.info().depth
    }

    fn frames(&self) -> u64 {
        self.file.frames()
    }

    fn scratch_size(&self) -> usize {
        scratch_size_for(self.file.info().channels)
    }

    fn fill(&self, channel: usize, start: u64, out: &mut [i32], scratch: &mut Scratch) {
        self.fill_part(channel, start, out, scratch);
    }
}

/// The frame that holds a sample, found by halving.
fn frame_of(file: &FlacFile, sample: u64) -> usize
    requires some { sample < file.now.frames }
    requires none { samples_before file.now 0 ≡ 0 }
    ensures inside { result < length file.now.places }
    ensures behind { samples_before file.now result ≤ sample }
    ensures before { sample < samples_before file.now (result + 1) }
    ensures few { length file.now.places < 2 ^ 64 }
{
    let mut low = 0;
    let mut high = file.places().len();
    while high - low > 1 {
        let middle = low + (high - low) / 2;
        if place_of(file, middle).first <= sample {
            low = middle;
        } else {
            high = middle;
        }
    }
    low
}

/// The place of a frame.
fn place_of(file: &FlacFile, frame: usize) -> FramePlace
    requires { frame < length file.now.places }
    ensures is { (other : FramePlace) → result ≡ slice_index_or file.now.places frame other }
    ensures first { result.first ≡ samples_before file.now frame }
{
    file.places()[frame]
}

/// Copies samples from a place on behind those that are written, as many as there are and as there
/// is room for. It tells how many.
fn copy_behind(samples: &[i32], from: usize, out: &mut [i32], done: usize) -> usize
    requires from { from ≤ length samples.now }
    requires done { done ≤ length out.old }
    ensures count { result ≡ min (length samples.now - from) (length out.old - done) }
    ensures written { take (done + result) out.new
        ≡ take done out.old ++ part samples.now from result }
    ensures long { length out.new ≡ length out.old }
{
    let (_, rest) = out.split_at_mut(done);
    copy_front(samples, from, rest)
}

/// Copies samples from a place on, as many as there are and as there is room for. It tells how
/// many.
fn copy_front(samples: &[i32], from: usize, out: &mut [i32]) -> usize
    requires { from ≤ length samples.now }
    ensures count { result ≡ min (length samples.now - from) (length out.old) }
    ensures written { take result out.new ≡ part samples.now from result }
    ensures long { length out.new ≡ length out.old }
{
    let count = (samples.len() - from).min(out.len());
    let (front, _) = out.split_at_mut(count);
    copy_part(samples, from, front);
    count
}

/// Copies the part of samples that begins at a place and is as long as `out`.
fn copy_part(samples: &[i32], from: usize, out: &mut [i32])
    requires { from + length out.old ≤ length samples.now }
    ensures { out.new ≡ part samples.now from (length out.old) }
{
    let rest = samples.split_at(from).1;
    out.copy_from_slice(rest.split_at(out.len()).0);
}
