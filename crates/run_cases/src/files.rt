//! Files, made by the lines of a block.

use anyhow::{Context, Result, bail};
use std::alloc::{AllocError, Global};

/// Samples of each channel in a second.
const RATE: u32 = 48_000;

/// The subformat of PCM in the extensible form.
const PCM_SUBFORMAT: &[u8] = b"\x01\0\0\0\0\0\x10\0\x80\0\0\xaa\0\x38\x9b\x71";

/// A file by its name.
#[derive(Drop)]
pub struct File {
    pub name: String,
    pub bytes: Vec<u8>,
}

/// The file of a name, among files.
pub fn find<'a>(files: &'a [File], name: &str) -> Result<&'a File> {
    match files.iter().find(|file| file.name.as_str() == name) {
        Some(file) => Ok(file),
        None => bail!("no file {name}"),
    }
}

/// Makes the file of a name by its lines.
pub fn make_file(alloc: Global, name: &str, lines: &[&str]) -> Result<File> {
    let mut making = Making::new(alloc);
    for line in lines {
        making.obey(line).context(format_args!("{line}"))?;
    }
    let bytes = making.finish()?;
    let name = String::from_str(alloc, name)?;
    Ok(File { name, bytes })
}

/// A file as far as its lines have made it. Where a chunk was begun it is a wave file of chunks.
#[derive(Drop)]
struct Making {
    alloc: Global,
    /// Bytes of a sample.
    width: usize,
    /// The chunks that are whole.
    chunks: Vec<u8>,
    /// The name of the chunk that is being made.
    chunk: Option<String>,
    /// Its content so far, or the file's where there is no chunk.
    content: Vec<u8>,
}

impl Making {
    fn new(alloc: Global) -> Making {
        Making {
            alloc,
            width: 2,
            chunks: Vec::new(alloc),
            chunk: None,
            content: Vec::new(alloc),
        }
    }

    /// Does what one line says.
    fn obey(&mut self, line: &str) -> Result<()> {
        let (word, rest) = line.split_once(' ').unwrap_or((line, ""));
        match word {
            "wave" => {
                self.begin_format(rest, 1)?;
                self.begin_chunk("data")?;
            }
            "format" => self.begin_format(rest, 1)?,
            "extensible" => {
                self.begin_format(rest, 0xfffe)?;
                self.extend_format()?;
            }
            "chunk" => self.begin_chunk(rest)?,
            "samples" => self.add_samples(rest)?,
            "stretch" => self.add_stretch(rest)?,
            "hex" => add_hex(&mut self.content, rest)?,
            "zeros" => add_zeros(&mut self.content, rest)?,
            _ => bail!("no line of a file"),
        }
        Ok(())
    }

    /// Ends the chunk before, if there is one, and begins another. Its name has four letters, the
    /// last of them spaces where it is written with fewer.
    fn begin_chunk(&mut self, name: &str) -> Result<()> {
        self.end_chunk()?;
        self.chunk = Some(format!(in self.alloc; "{name:<4}")?);
        Ok(())
    }

    /// Ends the chunk that is being made: its name, its length, its content, and a byte of zero
    /// where that length is odd.
    fn end_chunk(&mut self) -> Result<()> {
        let Some(name) = self.chunk.take() else {
            return Ok(());
        };
        let length = u32::try_from(self.content.len())?;
        self.chunks.extend_from_slice(name.as_bytes())?;
        self.chunks
            .extend_from_slice(length.to_le_bytes().as_slice())?;
        self.chunks.extend_from_slice(self.content.as_slice())?;
        if length % 2 == 1 {
            self.chunks.push(0)?;
        }
        self.content.clear();
        Ok(())
    }

    /// Begins the chunk of the format: PCM of so many channels and bits, at 48,000 samples a
    /// second.
    fn begin_format(&mut self, numbers: &str, tag: u16) -> Result<()> {
        let (channels, depth) = two_numbers(numbers)?;
        let align = channels.wrapping_mul(depth / 8);
        self.width = usize::from(depth / 8);
        self.begin_chunk("fmt")?;
        add_u16(&mut self.content, tag)?;
        add_u16(&mut self.content, channels)?;
        add_u32(&mut self.content, RATE)?;
        add_u32(&mut self.content, RATE.wrapping_mul(u32::from(align)))?;
        add_u16(&mut self.content, align)?;
        add_u16(&mut self.content, depth)?;
        Ok(())
    }

    /// Adds what a format of the extensible form has beyond the plain one. No speaker is assigned.
    fn extend_format(&mut self) -> Result<()> {
        let depth = u16::try_from(self.width.wrapping_mul(8))?;
        add_u16(&mut self.content, 22)?;
        add_u16(&mut self.content, depth)?;
        add_u32(&mut self.content, 0)?;
        self.content.extend_from_slice(PCM_SUBFORMAT)?;
        Ok(())
    }

    /// Adds samples by their values.
    fn add_samples(&mut self, values: &str) -> Result<()> {
        for value in values.split_whitespace() {
            let value = value.parse::<i32>()?;
            add_sample(&mut self.content, self.width, value)?;
        }
        Ok(())
    }

    /// Adds so many frames of one square wave a channel.
    fn add_stretch(&mut self, words: &str) -> Result<()> {
        let (frames, squares) = words.split_once(' ').context("a stretch of no channel")?;
        let squares = squares_of(self.alloc, squares)?;
        for frame in 0..frames.parse::<u32>()? {
            for square in squares.as_slice() {
                add_sample(&mut self.content, self.width, square.at(frame))?;
            }
        }
        Ok(())
    }

    /// The bytes of the file.
    fn finish(mut self) -> Result<Vec<u8>> {
        if self.chunk.is_none() {
            return Ok(self.content);
        }
        self.end_chunk()?;
        let length = u32::try_from(self.chunks.len().saturating_add(4))?;
        self.content.extend_from_slice(b"RIFF".as_slice())?;
        add_u32(&mut self.content, length)?;
        self.content.extend_from_slice(b"WAVE".as_slice())?;
        self.content.extend_from_slice(self.chunks.as_slice())?;
        Ok(self.content)
    }
}

/// A square wave: so many frames of a value, as many of that value with the other sign, and so on.
/// Where the number of frames is 0 the value stays.
#[derive(Clone, Copy)]
struct Square {
    half: u32,
    value: i32,
}

impl Square {
    fn at(self, frame: u32) -> i32 {
        if frame.checked_div(self.half).unwrap_or(0) % 2 == 0 {
            self.value
        } else {
            self.value.wrapping_neg()
        }
    }
}

/// Square waves, each as `HALF:VALUE`.
fn squares_of(alloc: Global, words: &str) -> Result<Vec<Square>> {
    let mut squares = Vec::new(alloc);
    for word in words.split_whitespace() {
        let (half, value) = word.split_once(':').context("a square wave is HALF:VALUE")?;
        let half = half.parse::<u32>()?;
        let value = value.parse::<i32>()?;
        squares.push(Square { half, value })?;
    }
    Ok(squares)
}

fn two_numbers(words: &str) -> Result<(u16, u16)> {
    let (first, second) = words.split_once(' ').context("two numbers are wanted")?;
    Ok((first.parse::<u16>()?, second.parse::<u16>()?))
}

fn add_u16(bytes: &mut Vec<u8>, value: u16) -> Result<(), AllocError> {
    bytes.extend_from_slice(value.to_le_bytes().as_slice())
}

fn add_u32(bytes: &mut Vec<u8>, value: u32) -> Result<(), AllocError> {
    bytes.extend_from_slice(value.to_le_bytes().as_slice())
}

/// Adds a sample of so many bytes, the lowest first.
fn add_sample(bytes: &mut Vec<u8>, width: usize, value: i32) -> Result<(), AllocError> {
    for byte in value.to_le_bytes().iter().take(width) {
        bytes.push(*byte)?;
    }
    Ok(())
}

/// Adds bytes that are written in hex, in groups.
pub fn add_hex(bytes: &mut Vec<u8>, words: &str) -> Result<()> {
    for word in words.split_whitespace() {
        let decoded = hex::decode(*bytes.allocator(), word)?;
        bytes.extend_from_slice(decoded.as_slice())?;
    }
    Ok(())
}

/// Adds so many bytes of zero.
pub fn add_zeros(bytes: &mut Vec<u8>, count: &str) -> Result<()> {
    for _ in 0..count.parse::<u32>()? {
        bytes.push(0)?;
    }
    Ok(())
}
