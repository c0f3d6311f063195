//! The sound of a file of either kind.
ghost use Rattle.std.specs.Prelude.{◌≡◌, ℕ};
ghost use Rattle.file_model.specs.Files.{Reads};
ghost use Rattle.file_model.specs.Pcm.{Pcm};
ghost use Rattle.file_model.specs.Reading.{accepted as reads_as};
ghost use Rattle.tag_writer.specs.Answers.{IsAcceptedOf};
ghost use Rattle.tag_writer.specs.AnySounds.{any_of, any_is_sound};

use crate::Accepted;
use flac_stream::FlacSound;
use lib_base::{Scratch, Sound};
use wave_chunks::WaveSound;

/// The sound of a file of either kind. It holds no sample: each part is read from the file's bytes
/// when it is asked for.
#[derive(Clone, Copy)]
pub enum AnySound<'a> {
    Wave(WaveSound<'a>),
    Flac(FlacSound<'a>),
}

impl<'a> AnySound<'a> {
    /// The sound of the file that `accept` gave of these bytes. It takes no memory.
    pub fn over(bytes: &'a [u8], accepted: &'a Accepted) -> AnySound<'a>
        requires { IsAcceptedOf bytes.now accepted.now }
        ensures lists { (sound : Pcm) → Reads bytes.now (reads_as sound)
            → ⟦<AnySound<'a> as Sound>⟧.lists result ≡ sound.lists }
        ensures depth { (sound : Pcm) → Reads bytes.now (reads_as sound)
            → ⟦<AnySound<'a> as Sound>⟧.depth result ≡ sound.depth }
        ensures frames { (sound : Pcm) → Reads bytes.now (reads_as sound)
            → ⟦<AnySound<'a> as Sound>⟧.frames result ≡ sound.frames }
    {
        match accepted {
            Accepted::Wave(wave) => AnySound::Wave(WaveSound::over(bytes, wave)),
            Accepted::Flac(file) => AnySound::Flac(FlacSound::over(bytes, file)),
        }
    }
}

impl<'a> Sound for AnySound<'a> {
    ghost lists = { any_of ⟦<WaveSound<'a> as Sound>⟧.lists ⟦<FlacSound<'a> as Sound>⟧.lists };

    ghost depth = { any_of ⟦<WaveSound<'a> as Sound>⟧.depth ⟦<FlacSound<'a> as Sound>⟧.depth };

    ghost frames = { any_of ⟦<WaveSound<'a> as Sound>⟧.frames ⟦<FlacSound<'a> as Sound>⟧.frames };

    ghost scratch_size = { any_of ⟦<WaveSound<'a> as Sound>⟧.scratch_size
        ⟦<FlacSound<'a> as Sound>⟧.scratch_size };

    ghost sound = { any_is_sound ⟦<WaveSound<'a> as Sound>⟧.lists ⟦<FlacSound<'a> as Sound>⟧.lists
        ⟦<WaveSound<'a> as Sound>⟧.depth ⟦<FlacSound<'a> as Sound>⟧.depth
        ⟦<WaveSound<'a> as Sound>⟧.frames ⟦<FlacSound<'a> as Sound>⟧.frames
        (λ s. s.sound) (λ s. s.sound) };

    fn channels(&self) -> usize {
        match self {
            AnySound::Wave(sound) => sound.channels(),
            AnySound::Flac(sound) => sound.channels(),
        }
    }

    fn depth(&self) -> u32 {
        match self {
            AnySound::Wave(sound) => sound.depth(),
            AnySound::Flac(sound) => sound.depth(),
        }
    }

    fn frames(&self) -> u64 {
        match self {
            AnySound::Wave(sound) => sound.frames(),
            AnySound::Flac(sound) => sound.frames(),
        }
    }

    fn scratch_size(&self) -> usize {
        match self {
            AnySound::Wave(sound) => sound.scratch_size(),
            AnySound::Flac(sound) => sound.scratch_size(),
        }
    }

    fn fill(&self, channel: usize, start: u64, out: &mut [i32], scratch: &mut Scratch) {
        match self {
            AnySound::Wave(sound) => sound.fill(channel, start, out, scratch),
            AnySound::Flac(sound) => sound.fill(channel, start, out, scratch),
        }
    }
}
