//! Reads wave files, and their samples as a sound.
//!
//! It reads the wave file whole: chunks of any names in any order, PCM of 16 or 24 bits at 48,000 Hz
//! with 1 to 6 channels, in the plain and the extensible form. It promises that a file is read
//! exactly where it is such a wave, with its chunks, its format and the places of its contents; that
//! any other is refused with the lowest rule that it breaks, at its place; and that the sound over a
//! file gives exactly its samples.
#![tactic(auto)]

ghost use Rattle.std.specs.Prelude.{◌≡◌, ℕ, List};
ghost use Rattle.file_model.specs.Rules.{Breaks, BreaksNoneBelow};
ghost use Rattle.wave_chunks.specs.Answers.{IsRefusalOf};

mod chunks;
mod fields;
mod format;
mod parts;
mod wave_sounds;
mod waves;

pub use chunks::Chunk;
use file_model::WaveRule;
use lib_base::{Broken, Refused};
pub use wave_sounds::WaveSound;
pub use waves::{Wave, read};

/// The refusal of a file that breaks a rule of waves at a place, and no lower one.
fn broken(rule: WaveRule, place: usize) -> Refused
    ensures { (bytes : List ℕ) → BreaksNoneBelow bytes rule → Breaks bytes rule place → IsRefusalOf bytes result }
{
    Refused::Broken(Broken {
        rule: rule.rule(),
        place: place as u64,
    })
}
