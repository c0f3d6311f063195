//! What a FLAC file says of its sound.

/// What STREAMINFO says that a reader goes by (RFC 9639 section 8.2).
#[derive(Clone, Copy, Debug, PartialEq, Eq)]
pub struct Info {
    /// Frames a second.
    pub rate: u32,
    pub channels: u32,
    /// Bits of a sample.
    pub depth: u32,
    /// Samples of each channel, 0 where that is not known.
    pub total: u64,
    /// Of the samples; all 0 where it was not computed.
    pub md5: [u8; 16],
}
