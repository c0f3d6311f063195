//! A wave file of noise, and the time that filling from it takes.
use lib_base::{Cells, Scratch, Sound};
use std::alloc::{AllocError, Global};

/// How many frames the file has, and how many are filled at a time.
const FRAMES: u32 = 24_000;

const FILLED: u32 = 4_000;

/// A file of two channels of noise, with 16 or 24 bits a sample.
pub fn stereo_noise(alloc: Global, depth: u8) -> Result<Vec<u8>, AllocError> {
    let align = u32::from(depth) / 4;
    let data = FRAMES * align;
    let mut bytes = Vec::new(alloc);
    bytes.extend_from_slice(b"RIFF")?;
    bytes.extend_from_slice(&(36 + data).to_le_bytes())?;
    bytes.extend_from_slice(b"WAVEfmt \x10\0\0\0\x01\0\x02\0\x80\xbb\0\0")?;
    bytes.extend_from_slice(&(48_000 * align).to_le_bytes())?;
    bytes.extend_from_slice(&[align as u8, 0, depth, 0])?;
    bytes.extend_from_slice(b"data")?;
    bytes.extend_from_slice(&data.to_le_bytes())?;
    let mut state = 1u32;
    for _ in 0..data {
        state = state.wrapping_mul(1_664_525).wrapping_add(1_013_904_223);
        bytes.push((state >> 24) as u8)?;
    }
    Ok(bytes)
}

/// Fills all channels so many times over, piece by piece, and sums the first sample of each piece.
pub fn fill_rounds<S: Sound>(
    alloc: Global,
    sound: &S,
    rounds: u32,
) -> Result<(Vec<i32>, u64), AllocError> {
    let mut scratch = Scratch {
        cells: Cells::of(Vec::new(alloc)),
    };
    let mut out = vec![in alloc; 0; FILLED as usize]?;
    let mut sum = 0u64;
    for _ in 0..rounds {
        for channel in 0..sound.channels() {
            for piece in 0..FRAMES / FILLED {
                let start = u64::from(piece * FILLED);
                fill_at(sound, channel, start, out.as_mut_slice(), &mut scratch);
                sum = sum.wrapping_add(first_of(out.as_slice()));
            }
        }
    }
    Ok((out, sum))
}

/// Fills a piece, where it lies within the sound.
fn fill_at<S: Sound>(
    sound: &S,
    channel: usize,
    start: u64,
    out: &mut [i32],
    scratch: &mut Scratch,
) {
    let inside = out.len() as u64 <= sound.frames() && start <= sound.frames() - out.len() as u64;
    if inside && channel < sound.channels() && sound.scratch_size() <= scratch.size() {
        sound.fill(channel, start, out, scratch);
    }
}

fn first_of(samples: &[i32]) -> u64 {
    match samples.first() {
        Some(sample) => u64::from(u32::from_le_bytes(sample.to_le_bytes())),
        None => 0,
    }
}
