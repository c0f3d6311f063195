//! Meters of segments.
ghost use Rattle.std.specs.Prelude.{◌≡◌, ◌≤◌, ◌<◌, ◌+◌, ◌*◌, ◌%◌, ◌^◌, ℤ, List, [], ◌∷◌, ◌++◌, length, sum_by, IfOk, All, vec_len, vec_capacity};
ghost use Rattle.gate_blocks.specs.Bounds.{AreOfChannel, IsWeighted};
ghost use Rattle.sound_model.specs.Segments.{segments_of, square};

use lib_base::{Energies, Memory, SEGMENT_FRAMES};
use std::alloc::Global;
use std::marker::Model;

/// Sums the squares of the weighted values of one channel, over each whole segment.
#[derive(Debug, Drop)]
pub struct SegmentMeter {
    energies: Vec<u128>,
    after: u128,
    taken: usize,
    frames: u64,
}

impl Model for SegmentMeter {
    ghost use Rattle.std.specs.Prelude.{◌≡◌, ◌≤◌, ◌<◌, ◌+◌, ◌*◌, ◌/◌, ◌^◌, length, vec_capacity};
    ghost use Rattle.lib_base.specs.declared.limits.TheConstants.{SEGMENT_FRAMES};
    ghost use Rattle.gate_blocks.specs.Bounds.{AreOfChannel};
    ghost use Rattle.gate_blocks.specs.Meters.{Meter};

    ghost Value = { Meter };

    ghost view = { λ m. record {
      frames = m.frames;
      count = SEGMENT_FRAMES * length m.energies.items + m.taken;
      energies = m.energies.items;
      after = m.after;
    } };

    ghost invariant = { λ m. (m.frames / SEGMENT_FRAMES ≤ vec_capacity m.energies)
        × (SEGMENT_FRAMES * length m.energies.items + m.taken ≤ m.frames)
        × (m.taken < SEGMENT_FRAMES) × (m.after ≤ m.taken * 2 ^ 60) × AreOfChannel m.energies.items };
}

impl SegmentMeter {
    ghost use Rattle.gate_blocks.specs.Meters.{Meter, WasFed};

    /// A meter that was fed nothing, with room for the segments of so many frames.
    pub fn new(alloc: Global, frames: u64) -> Result<SegmentMeter, Memory>
        ensures fed { IfOk result (λ meter. WasFed meter []) }
        ensures frames { IfOk result (λ meter. meter.frames ≡ frames) }
    {
        let energies = Vec::with_capacity(alloc, frames as usize / SEGMENT_FRAMES)?;
        Ok(SegmentMeter {
            energies,
            after: 0,
            taken: 0,
            frames,
        })
    }

    /// Takes further values, within 2^30 each and no more in all than `frames`. It takes no memory:
    /// `new` made the room.
    pub fn feed(&mut self, filtered: &[i32])
        requires room { self.old.count + length filtered.now ≤ self.old.frames }
        requires within { All IsWeighted filtered.now }
        ensures fed { (xs : List ℤ) → WasFed self.old xs → WasFed self.new (xs ++ filtered.now) }
        ensures count { self.new.count ≡ self.old.count + length filtered.now }
        ensures frames { self.new.frames ≡ self.old.frames }
    {
        let mut rest = filtered;
        while !rest.is_empty() {
            let count = rest.len().min(SEGMENT_FRAMES - self.taken);
            let (piece, later) = rest.split_at(count);
            self.take_piece(piece);
            rest = later;
        }
    }

    /// Takes values that lie in one segment.
    fn take_piece(&mut self, piece: &[i32])
        requires room { self.old.count + length piece.now ≤ self.old.frames }
        requires one_segment { self.old.count % SEGMENT_FRAMES + length piece.now ≤ SEGMENT_FRAMES }
        requires within { All IsWeighted piece.now }
        ensures fed { (xs : List ℤ) → WasFed self.old xs → WasFed self.new (xs ++ piece.now) }
        ensures count { self.new.count ≡ self.old.count + length piece.now }
        ensures frames { self.new.frames ≡ self.old.frames }
    {
        self.after += squares_of(piece);
        self.taken += piece.len();
        if self.taken == SEGMENT_FRAMES {
            append(&mut self.energies, self.after);
            self.after = 0;
            self.taken = 0;
        }
    }

    /// The energies of the whole segments that were fed so far, one for each.
    pub fn energies(&self) -> &[u128]
        ensures energies { (xs : List ℤ) → WasFed self.now xs → result.now ≡ segments_of xs }
        ensures within { AreOfChannel result.now }
    {
        self.energies.as_slice()
    }

    /// Those energies, given up with no memory taken.
    pub fn into_energies(self) -> Energies
        ensures energies { (xs : List ℤ) → WasFed self xs → result ≡ segments_of xs }
        ensures within { AreOfChannel result }
    {
        Energies::of(self.energies)
    }
}

/// Appends an energy for which there is room.
fn append(energies: &mut Vec<u128>, energy: u128)
    requires { vec_len energies.old < vec_capacity energies.old }
    ensures items { energies.new.items ≡ energies.old.items ++ energy ∷ [] }
    ensures capacity { vec_capacity energies.old ≤ vec_capacity energies.new }
{
    if energies.push(energy).is_err() {
        unreachable!()
    }
}

/// The sum of the squares of values of at most one segment.
fn squares_of(piece: &[i32]) -> u128
    requires few { length piece.now ≤ SEGMENT_FRAMES }
    requires within { All IsWeighted piece.now }
    ensures value { result ≡ sum_by square piece.now }
    ensures bound { result ≤ length piece.now * 2 ^ 60 }
{
    let mut sum = 0;
    for value in piece {
        sum += u128::from(squared(*value));
    }
    sum
}

fn squared(value: i32) -> u64
    requires { IsWeighted value }
    ensures squared { result ≡ square value }
    ensures bound { result ≤ 2 ^ 60 }
{
    let size = u64::from(value.unsigned_abs());
    size * size
}
