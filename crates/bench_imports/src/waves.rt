//! Waves of noise.
use std::alloc::{AllocError, Global};

/// How many frames a segment has.
const SEGMENT: u32 = 4_800;

/// A wave file of so many segments, 60 at most, of one channel of 16 bits, by the linear congruential
/// generator of Numerical Recipes.
pub fn noise(alloc: Global, segments: u32) -> Result<Vec<u8>, AllocError> {
    let data = SEGMENT * 2 * segments.min(60);
    let mut bytes = Vec::new(alloc);
    bytes.extend_from_slice(b"RIFF")?;
    bytes.extend_from_slice(&(36 + data).to_le_bytes())?;
    bytes.extend_from_slice(b"WAVEfmt \x10\0\0\0\x01\0\x01\0\x80\xbb\0\0\0\x77\x01\0\x02\0\x10\0")?;
    bytes.extend_from_slice(b"data")?;
    bytes.extend_from_slice(&data.to_le_bytes())?;
    let mut state = 1u32;
    for _ in 0..data {
        state = state.wrapping_mul(1_664_525).wrapping_add(1_013_904_223);
        bytes.push((state >> 24) as u8)?;
    }
    Ok(bytes)
}
