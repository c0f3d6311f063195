//! Sounds, and the room that filling from one may want.
ghost use Rattle.std.specs.Prelude.{◌≡◌, ◌≤◌, ◌<◌, ◌+◌, ℕ, ℤ, List, length, map, pos, replicate, IfOk};
ghost use Rattle.lib_base.specs.Sounds.{IsSound, part, samples_of};

use crate::{Cells, Memory};
use std::alloc::Global;

/// How many frames are filled at a time where a whole sound is gone over.
pub const PIECE: usize = 4096;

/// Room that a call of `fill` may write over.
#[derive(Debug, Drop)]
pub struct Scratch {
    pub cells: Cells,
}

impl Scratch {
    /// Room of this size, all zeros.
    pub fn new(alloc: Global, size: usize) -> Result<Scratch, Memory>
        ensures { IfOk result (λ scratch. scratch.cells ≡ replicate size (pos 0)) }
    {
        let cells = Cells::of(vec![in alloc; 0; size]?);
        Ok(Scratch { cells })
    }

    pub fn size(&self) -> usize
        ensures { result ≡ length self.now.cells }
    {
        self.cells.len()
    }
}

/// A sound: one list of samples per channel.
pub trait Sound: Sync {
    /// The samples of each channel.
    ghost lists: { Self → List (List ℤ) };

    /// How many bits a sample has.
    ghost depth: { Self → ℕ };

    /// How many samples each channel has.
    ghost frames: { Self → ℕ };

    /// How much room `fill` wants.
    ghost scratch_size: { Self → ℕ };

    fn channels(&self) -> usize
        ensures { result ≡ length (lists self.now) };

    fn depth(&self) -> u32
        ensures { result ≡ depth self.now };

    fn frames(&self) -> u64
        ensures { result ≡ frames self.now };

    fn scratch_size(&self) -> usize
        ensures { result ≡ scratch_size self.now };

    /// Writes the part of the channel that begins at `start` and is as long as `out`.
    fn fill(&self, channel: usize, start: u64, out: &mut [i32], scratch: &mut Scratch)
        requires channel { channel < length (lists self.now) }
        requires inside { start + length out.old ≤ frames self.now }
        requires room { scratch_size self.now ≤ length scratch.old.cells }
        ensures samples { out.new ≡ part (samples_of (lists self.now) channel) start (length out.old) }
        ensures room { length scratch.new.cells ≡ length scratch.old.cells };

    ghost sound: { (s : Self) → IsSound (lists s) (depth s) (frames s) };
}

/// A sound that holds a list of samples per channel.
#[derive(Debug, Drop)]
pub struct PcmSound {
    depth: u32,
    frames: u64,
    channels: Vec<Vec<i32>>,
    ghost sound: { IsSound (map (λ v. v.items) channels.items) depth frames },
}

impl PcmSound {
    /// The sound of these lists, with no memory taken.
    pub fn new(depth: u32, channels: Vec<Vec<i32>>) -> PcmSound
        requires { let lists = map (λ v. v.items) channels.items in
            IsSound lists depth (length (samples_of lists 0)) }
        ensures lists { ⟦<PcmSound as Sound>⟧.lists result ≡ map (λ v. v.items) channels.items }
        ensures depth { ⟦<PcmSound as Sound>⟧.depth result ≡ depth }
        ensures frames { ⟦<PcmSound as Sound>⟧.frames result
            ≡ length (samples_of (map (λ v. v.items) channels.items) 0) }
        ensures scratch { ⟦<PcmSound as Sound>⟧.scratch_size result ≡ 0 }
    {
        let frames = channels[0].len() as u64;
        PcmSound {
            depth,
            frames,
            channels,
        }
    }
}

impl Sound for PcmSound {
    ghost lists = { λ s. map (λ v. v.items) s.channels.items };

    ghost depth = { λ s. s.depth };

    ghost frames = { λ s. s.frames };

    ghost scratch_size = { λ _. 0 };

    ghost sound = { λ s. s.sound };

    fn channels(&self) -> usize {
        self.channels.len()
    }

    fn depth(&self) -> u32 {
        self.depth
    }

    fn frames(&self) -> u64 {
        self.frames
    }

    fn scratch_size(&self) -> usize {
        0
    }

    fn fill(&self, channel: usize, start: u64, out: &mut [i32], _scratch: &mut Scratch) {
        copy_part(&self.channels[channel], start as usize, out);
    }
}

/// Copies the part of `samples` that begins at `start` and is as long as `out`.
fn copy_part(samples: &[i32], start: usize, out: &mut [i32])
    requires { start + length out.old ≤ length samples.now }
    ensures { out.new ≡ part samples.now start (length out.old) }
{
    let rest = samples.split_at(start).1;
    out.copy_from_slice(rest.split_at(out.len()).0);
}
