//! The MD5 of a sound's samples (RFC 9639 section 8.2).
ghost use Rattle.std.specs.Prelude.{◌≡◌, ◌≤◌, ◌<◌, ◌+◌, ◌*◌, ◌++◌, ◌||◌, ℕ, Bool, List, [], pos, not, nat_eq, length, slice_index_or, OnOk};
ghost use Rattle.std.specs.Cmp.Lexicographic.{pointwise};
ghost use Rattle.std.specs.List.{flat_map, list_all};
ghost use Rattle.std.specs.Simd.{first_chunks};
ghost use Rattle.md5.specs.Md5.{md5};
ghost use Rattle.lib_base.specs.Sounds.{samples_of};
ghost use Rattle.file_model.specs.Pcm.{frame_at, interleaved};
ghost use Rattle.flac_stream.specs.Frames.{in_bytes, is_asked, WasFed};

use flac_frames::channel;
use lib_base::{Memory, Scratch};
use md5::{Digest, Md5};
use std::alloc::Global;

/// How many bytes are gathered before they are hashed.
const PIECE_BYTES: usize = 4096;

/// The MD5 of samples that come frame by frame, where it is asked for.
#[derive(Drop)]
pub(crate) struct SoundDigest {
    is_asked: bool,
    hasher: Md5,
    piece: Vec<u8>,
}

impl SoundDigest {
    /// The digest of no sample yet. It is asked for unless the wanted one is all zeros.
    pub(crate) fn new(alloc: Global, wanted: &[u8; 16]) -> SoundDigest
        ensures { WasFed (is_asked wanted.now) result [] }
    {
        let is_asked = !is_zero(wanted.as_slice());
        let hasher = Md5::new();
        let piece = Vec::new(alloc);
        SoundDigest {
            is_asked,
            hasher,
            piece,
        }
    }

    /// The samples of a frame, as they stand in the scratch, in so many bytes each.
    pub(crate) fn feed(
        &mut self,
        scratch: &Scratch,
        block: u32,
        channels: usize,
        count: usize,
    ) -> Result<(), Memory>
        requires room { channels * block ≤ length scratch.now.cells }
        requires bytes { count ≤ 4 }
        ensures { OnOk result ((asked : Bool) (message : List ℕ) → WasFed asked self.old message
            → WasFed asked self.new (message
            ++ flat_map (in_bytes count) (interleaved block (first_chunks block channels scratch.now.cells)))) }
    {
        let is_asked = self.is_asked;
        if !is_asked {
            return Ok(());
        }
        // a width that the compiler knows is gathered without a call
        match count {
            2 => self.feed_rows(scratch, block, channels, 2),
            3 => self.feed_rows(scratch, block, channels, 3),
            _ => self.feed_rows(scratch, block, channels, count),
        }
    }

    /// The samples of all places of a frame.
    #[inline(always)]
    fn feed_rows(
        &mut self,
        scratch: &Scratch,
        block: u32,
        channels: usize,
        count: usize,
    ) -> Result<(), Memory>
        requires room { channels * block ≤ length scratch.now.cells }
        requires bytes { count ≤ 4 }
        ensures { OnOk result ((asked : Bool) (message : List ℕ) → WasFed asked self.old message
            → WasFed asked self.new (message
            ++ flat_map (in_bytes count) (interleaved block (first_chunks block channels scratch.now.cells)))) }
    {
        for place in 0..block as usize {
            match self.feed_row(scratch, block, place, channels, count) {
                Ok(()) => {}
                Err(memory) => return Err(memory),
            }
        }
        Ok(())
    }

    /// The samples of all channels at a place of a frame.
    #[inline(always)]
    fn feed_row(
        &mut self,
        scratch: &Scratch,
        block: u32,
        place: usize,
        channels: usize,
        count: usize,
    ) -> Result<(), Memory>
        requires room { channels * block ≤ length scratch.now.cells }
        requires place { place < block }
        requires bytes { count ≤ 4 }
        ensures { OnOk result ((asked : Bool) (message : List ℕ) → WasFed asked self.old message
            → WasFed asked self.new (message
            ++ flat_map (in_bytes count) (frame_at (first_chunks block channels scratch.now.cells) place))) }
    {
        for channel in 0..channels {
            let sample = sample_at(scratch, block, channel, place);
            match self.feed_sample(sample, count) {
                Ok(()) => {}
                Err(memory) => return Err(memory),
            }
        }
        self.hash_whole_pieces();
        Ok(())
    }

    /// One sample, in so many bytes.
    #[inline(always)]
    fn feed_sample(&mut self, sample: i32, count: usize) -> Result<(), Memory>
        requires { count ≤ 4 }
        ensures { OnOk result ((asked : Bool) (message : List ℕ) → WasFed asked self.old message
            → WasFed asked self.new (message ++ in_bytes count sample)) }
    {
        let bytes = sample.to_le_bytes();
        self.piece
            .extend_from_slice(bytes.as_slice().split_at(count).0)?;
        Ok(())
    }

    /// Hashes what has gathered, where that is a piece.
    fn hash_whole_pieces(&mut self)
        ensures { (asked : Bool) (message : List ℕ) → WasFed asked self.old message → WasFed asked self.new message }
    {
        if self.piece.len() < PIECE_BYTES {
            return;
        }
        self.hasher.update(self.piece.as_slice());
        self.piece.clear();
    }

    /// Whether the samples have the wanted digest, or none is asked for.
    pub(crate) fn meets(self, wanted: &[u8; 16]) -> bool
        ensures { (message : List ℕ) → WasFed (is_asked wanted.now) self message
            → result ≡ (list_all (nat_eq 0) wanted.now || pointwise nat_eq wanted.now (md5 message)) }
    {
        let SoundDigest {
            is_asked,
            mut hasher,
            piece,
        } = self;
        if !is_asked {
            return true;
        }
        hasher.update(piece.as_slice());
        let digest = hasher.finalize();
        is_same(wanted, &digest)
    }
}

/// Whether two digests are the same.
fn is_same(wanted: &[u8; 16], digest: &[u8; 16]) -> bool
    ensures { result ≡ pointwise nat_eq wanted.now digest.now }
{
    *wanted == *digest
}

/// Whether all bytes are 0.
fn is_zero(bytes: &[u8]) -> bool
    ensures { result ≡ list_all (nat_eq 0) bytes.now }
{
    for byte in bytes {
        if *byte != 0 {
            return false;
        }
    }
    true
}

/// The sample of a channel at a place of a frame.
fn sample_at(scratch: &Scratch, block: u32, index: usize, place: usize) -> i32
    requires room { (index + 1) * block ≤ length scratch.now.cells }
    requires place { place < block }
    ensures { (channels : ℕ) → index < channels
        → result ≡ slice_index_or (samples_of (first_chunks block channels scratch.now.cells) index) place (pos 0) }
{
    let samples = channel(scratch, block, index);
    samples[place]
}
