//! Numbers that every layer cites.

/// Frames a second of every sound that is measured: the rate for which ITU-R BS.1770-4 (annex 1)
/// gives its filters.
pub const SAMPLE_RATE: u32 = 48_000;

/// How many channels a sound has at most.
pub const MOST_CHANNELS: u16 = 6;

/// How many bits a sample has at least (RFC 9639 section 3.1).
pub const LEAST_DEPTH: u32 = 4;

/// How many bits a sample has at most.
pub const GREATEST_DEPTH: u32 = 24;

/// How many samples are read of a file at most, over all channels: those of 16 bits that fill
/// 268,435,456 bytes. So it is also how many frames a sound has at most.
pub const MOST_SAMPLES: u64 = 134_217_728;

/// How many frames a segment has: 100 ms (BS.1770-4 annex 1).
pub const SEGMENT_FRAMES: usize = 4_800;

/// How many whole segments a sound has at most.
pub const MOST_SEGMENTS: usize = MOST_SAMPLES as usize / SEGMENT_FRAMES;

/// How many segments a block has: 400 ms, one block each 100 ms (BS.1770-4 annex 1).
pub const BLOCK_SEGMENTS: usize = 4;

/// How many segments a window has: 3 s, one window each 100 ms (EBU Tech 3341).
pub const WINDOW_SEGMENTS: usize = 30;

/// 10^7 times the power that stands for 0 LUFS: the square of full scale, 2^54, times 10^0.0691,
/// taken as 1.1724653.
pub const FULL_POWER: u128 = 11_724_653 << 54;

/// The greatest energy of a segment, in 2^-76 of full power: 4,800 frames of six channels at the
/// clamp, 2^30, whose weights add up to 5.82.
pub const GREATEST_ENERGY: u128 = (1 << 60) * 4_800 * 582;

/// How many samples before a place the filter of the true peak reads there, and so how many places
/// it runs past the end of a channel (BS.1770-4 annex 2: twelve taps a phase).
pub const PEAK_REACH: usize = 11;

/// The greatest peak, in 2^-36 of full scale: the heaviest phase of the filter over samples at full
/// scale which have the signs of its taps.
pub const GREATEST_PEAK: u64 = 16_571 << 23;

/// How many recordings an album has at most.
pub const MOST_MEMBERS: u64 = 256;

/// How many workers measure a sound at most.
pub const MOST_WORKERS: u32 = 64;

/// The end of the numbers that are given out: each id and each take is below it, and a counter that
/// stands at it gives none.
pub const NUMBERS_END: u32 = 2_147_483_647;
