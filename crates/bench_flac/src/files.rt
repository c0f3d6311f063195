//! Whole files: the MD5 of their samples, reading them, and filling from them.
ghost use Rattle.std.specs.Prelude.{◌≡◌, ◌≤◌, ◌<◌, length};
ghost use Rattle.lib_base.specs.Sounds.{IsSound};

use crate::noise::checksum;
use flac_stream::{FlacSound, decode, read};
use lib_base::{Memory, PIECE, PcmSound, Refused, Scratch, Sound};
use md5::{Digest, Md5};
use std::alloc::Global;

/// The MD5 of a file's samples: of all channels, interleaved, each sample in as few bytes as its
/// depth takes.
pub fn samples_digest(alloc: Global, bytes: &[u8]) -> Result<[u8; 16], Refused> {
    let sound = decode(alloc, bytes)?;
    let digest = digest_of(alloc, &sound)?;
    Ok(digest)
}

fn digest_of(alloc: Global, sound: &PcmSound) -> Result<[u8; 16], Memory> {
    let size = (sound.depth() as usize + 7) / 8;
    let frames = sound.frames() as usize;
    let mut scratch = Scratch::new(alloc, sound.scratch_size())?;
    let mut lists = Vec::new(alloc);
    for channel in 0..sound.channels() {
        let mut samples = vec![in alloc; 0; frames]?;
        sound.fill(channel, 0, samples.as_mut_slice(), &mut scratch);
        lists.push(samples)?;
    }
    let mut hasher = Md5::new();
    let mut row = Vec::new(alloc);
    'rows: for place in 0..frames {
        row.clear();
        for samples in lists.iter() {
            if let Some(sample) = samples.as_slice().get(place) {
                let bytes = sample.to_le_bytes();
                row.extend_from_slice(bytes.as_slice().split_at(size).0)?;
            }
        }
        hasher.update(row.as_slice());
    }
    Ok(hasher.finalize())
}

/// Reads a file whole: how many samples each channel has.
pub fn frames(alloc: Global, bytes: &[u8]) -> Result<u64, Refused> {
    let file = read(alloc, bytes)?;
    Ok(file.frames())
}

/// Reads a file, and fills from each channel in pieces.
pub fn filled(alloc: Global, bytes: &[u8]) -> Result<u64, Refused> {
    let file = read(alloc, bytes)?;
    let sound = FlacSound::over(bytes, &file);
    let mut piece = vec![in alloc; 0; PIECE]?;
    let mut sum = 0u64;
    for channel in 0..sound.channels() {
        let mut scratch = Scratch::new(alloc, sound.scratch_size())?;
        let more = channel_sum(&sound, channel, piece.as_mut_slice(), &mut scratch);
        sum = sum.wrapping_mul(31).wrapping_add(more);
    }
    Ok(sum)
}

/// A number that a change of any sample would change, of the whole pieces of a channel.
fn channel_sum<S: Sound>(sound: &S, channel: usize, piece: &mut [i32], scratch: &mut Scratch) -> u64
    requires channel { channel < length (S.lists sound.now) }
    requires piece { length piece.old ≡ PIECE }
    requires room { S.scratch_size sound.now ≤ length scratch.old.cells }
    ensures room { length scratch.new.cells ≡ length scratch.old.cells }
{
    let mut sum = 0u64;
    'pieces: for index in 0..sound.frames() / PIECE as u64 {
        sound.fill(channel, index * PIECE as u64, piece, scratch);
        sum = sum.wrapping_mul(31).wrapping_add(checksum(piece));
    }
    sum
}
