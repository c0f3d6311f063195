//! What a FLAC file is made of.
ghost use Rattle.std.specs.Prelude.{◌≡◌, ◌≤◌, ◌*◌, length, IfOk, IfErr};
ghost use Rattle.flac_stream.specs.Answers.{IsRefusalOf};
ghost use Rattle.flac_stream.specs.Blocks.{IsOpening};
ghost use Rattle.flac_stream.specs.Hearing.{HaveHeard};
ghost use Rattle.flac_stream.specs.Shape.{IsReadOf};

use crate::blocks::{Block, Blocks};
use crate::ending::check_end;
use crate::frames::{FramePlace, Frames, read_frames};
use crate::opening::{Opening, read_opening};
use file_model::Info;
use flac_frames::GREATEST_BLOCK;
use lib_base::{Refused, Scratch};
use std::alloc::Global;
use std::marker::Model;

/// The parts of a FLAC file.
#[derive(Drop)]
pub struct FlacFile {
    info: Info,
    blocks: Vec<Block>,
    comments: Option<usize>,
    frames: u64,
    sound_start: usize,
    places: Vec<FramePlace>,
}

impl Model for FlacFile {
    ghost use Rattle.flac_stream.specs.Shape.{Shape};

    ghost Value = { Shape };

    ghost view = { λ f. record {
      info = f.info;
      blocks = f.blocks.items;
      comments = f.comments;
      frames = f.frames;
      sound_start = f.sound_start;
      places = f.places.items;
    } };
}

impl FlacFile {
    /// What STREAMINFO says.
    pub fn info(&self) -> Info
        ensures { result ≡ self.now.info }
    {
        self.info
    }

    /// The metadata blocks, in the file's order.
    pub fn blocks(&self) -> &[Block]
        ensures { result.now ≡ self.now.blocks }
    {
        self.blocks.as_slice()
    }

    /// Which of the blocks holds comments, if one does.
    pub fn comments(&self) -> Option<usize>
        ensures { result ≡ self.now.comments }
    {
        self.comments
    }

    /// How many samples each channel has.
    pub fn frames(&self) -> u64
        ensures { result ≡ self.now.frames }
    {
        self.frames
    }

    /// Where the first frame begins.
    pub fn sound_start(&self) -> usize
        ensures { result ≡ self.now.sound_start }
    {
        self.sound_start
    }

    /// Where each frame begins.
    pub(crate) fn places(&self) -> &[FramePlace]
        ensures { result.now ≡ self.now.places }
    {
        self.places.as_slice()
    }
}

/// Reads a FLAC file. What is none is broken by the first rule that it breaks, at its place.
///
/// Each frame is decoded once. Memory is taken for one block of each channel, for the lists of
/// blocks and of the frames' places, and for a piece that is hashed; none of it grows with samples.
///
/// # Errors
///
/// `Broken` with the rule and its place, a byte offset; `Memory` says nothing of the bytes.
pub fn read(alloc: Global, bytes: &[u8]) -> Result<FlacFile, Refused>
    ensures ok { IfOk result (λ file. IsReadOf bytes.now file) }
    ensures err { IfErr result (λ refused. IsRefusalOf bytes.now refused) }
{
    let opening = read_opening(alloc, bytes)?;
    let size = scratch_size_for(opening.info.channels);
    let mut scratch = Scratch::new(alloc, size)?;
    let frames = read_frames(
        alloc,
        bytes,
        opening.blocks.end,
        &opening.info,
        &mut scratch,
    )?;
    close(bytes, opening, frames)
}

/// The cells that the greatest block takes.
pub(crate) fn scratch_size_for(channels: u32) -> usize
    requires { channels ≤ 8 }
    ensures { result ≡ channels * GREATEST_BLOCK }
{
    channels as usize * GREATEST_BLOCK as usize
}

/// Tries what STREAMINFO says of all frames.
fn close(bytes: &[u8], opening: Opening, frames: Frames) -> Result<FlacFile, Refused>
    requires opened { IsOpening bytes.now opening.info opening.blocks.items.items
        opening.blocks.comments opening.blocks.end }
    requires heard { HaveHeard opening.info bytes.now opening.blocks.end (length bytes.now) frames }
    ensures ok { IfOk result (λ file. IsReadOf bytes.now file) }
    ensures err { IfErr result (λ refused. IsRefusalOf bytes.now refused) }
{
    let Opening { info, blocks } = opening;
    let Blocks {
        items,
        comments,
        end,
    } = blocks;
    let Frames {
        places,
        count,
        digest,
    } = frames;
    match check_end(&info, count, digest) {
        Ok(()) => Ok(FlacFile {
            info,
            blocks: items,
            comments,
            frames: count,
            sound_start: end,
            places,
        }),
        Err(broken) => Err(Refused::Broken(broken)),
    }
}
