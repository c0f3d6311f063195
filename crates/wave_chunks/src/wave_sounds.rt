//! The samples of a wave file, read from its bytes.
ghost use Rattle.std.specs.Prelude.{◌≡◌, ◌≢◌, ◌<◌, ◌+◌, ◌*◌, ◌/◌, ℕ, length};
ghost use Rattle.file_model.specs.Channels.{channel_samples};
ghost use Rattle.file_model.specs.Pcm.{Pcm};
ghost use Rattle.file_model.specs.Samples.{sample_in};
ghost use Rattle.file_model.specs.Wave.{IsWave};
ghost use Rattle.lib_base.specs.Sounds.{IsSound};
ghost use Rattle.wave_chunks.specs.Answers.{IsReadOf};
ghost use Rattle.wave_chunks.specs.Held.{channels_held, samples_held};

use crate::Wave;
use lib_base::{Scratch, Sound, content_of};

/// The sound of a wave file. It holds no sample: each part is read from the file's bytes when it is
/// asked for.
#[derive(Clone, Copy, Debug)]
pub struct WaveSound<'a> {
    content: &'a [u8],
    channels: usize,
    depth: u32,
    frames: u64,
    ghost known: { depth ≢ 16 → depth ≡ 24 },
    ghost whole: { length content.now / (depth / 8) ≡ channels * frames },
    ghost sound: { IsSound (channels_held depth channels frames content.now) depth frames },
}

impl<'a> WaveSound<'a> {
    /// The sound of the wave file that `read` gave of these bytes. It takes no memory.
    pub fn over(bytes: &'a [u8], wave: &Wave) -> WaveSound<'a>
        requires { IsReadOf bytes.now wave.now }
        ensures lists { (sound : Pcm) → IsWave bytes.now sound
            → ⟦<WaveSound<'a> as Sound>⟧.lists result ≡ sound.lists }
        ensures depth { ⟦<WaveSound<'a> as Sound>⟧.depth result ≡ wave.now.depth }
        ensures frames { ⟦<WaveSound<'a> as Sound>⟧.frames result ≡ wave.now.frames }
        ensures scratch { ⟦<WaveSound<'a> as Sound>⟧.scratch_size result ≡ 0 }
    {
        WaveSound {
            content: content_of(bytes, wave.samples()),
            channels: wave.channels() as usize,
            depth: wave.depth(),
            frames: wave.frames(),
        }
    }
}

impl<'a> Sound for WaveSound<'a> {
    ghost lists = { λ s. channels_held s.depth s.channels s.frames s.content.now };

    ghost depth = { λ s. s.depth };

    ghost frames = { λ s. s.frames };

    ghost scratch_size = { λ _. 0 };

    ghost sound = { λ s. s.sound };

    fn channels(&self) -> usize {
        self.channels
    }

    fn depth(&self) -> u32 {
        self.depth
    }

    fn frames(&self) -> u64 {
        self.frames
    }

    fn scratch_size(&self) -> usize {
        0
    }

    fn fill(&self, channel: usize, start: u64, out: &mut [i32], _scratch: &mut Scratch) {
        let first = self.channels * start as usize + channel;
        if self.depth == 16 {
            fill_16(self.content, self.channels, first, out);
        } else {
            fill_24(self.content, self.channels, first, out);
        }
    }
}

/// Writes as many of the samples of 16 bits in these bytes as `out` is long: that at the place
/// `first`, and each that is so many places behind the one before.
fn fill_16(bytes: &[u8], step: usize, first: usize, out: &mut [i32])
    requires { (i : ℕ) → i < length out.old → step * i + first < length bytes.now / 2 }
    ensures { out.new ≡ channel_samples step first (length out.old) (samples_held 16 bytes.now) }
{
    let (pairs, _) = bytes.as_chunks::<2>();
    for i in 0..out.len() {
        out[i] = sample_16(pairs[step * i + first]);
    }
}

/// The same of samples of 24 bits.
fn fill_24(bytes: &[u8], step: usize, first: usize, out: &mut [i32])
    requires { (i : ℕ) → i < length out.old → step * i + first < length bytes.now / 3 }
    ensures { out.new ≡ channel_samples step first (length out.old) (samples_held 24 bytes.now) }
{
    let (triples, _) = bytes.as_chunks::<3>();
    for i in 0..out.len() {
        out[i] = sample_24(triples[step * i + first]);
    }
}

/// The sample in two bytes.
fn sample_16(bytes: [u8; 2]) -> i32
    ensures { result ≡ sample_in 16 bytes }
{
    i32::from(i16::from_le_bytes(bytes))
}

/// The sample in three bytes.
fn sample_24(bytes: [u8; 3]) -> i32
    ensures { result ≡ sample_in 24 bytes }
{
    let [low, middle, high] = bytes;
    if high < 0x80 {
        i32::from_le_bytes([low, middle, high, 0])
    } else {
        i32::from_le_bytes([low, middle, high, 0xFF])
    }
}
